//! What a call prints and answers, over files and a sink in memory.

mod commands;
mod faults;
mod files;
mod forms;
mod generated;
mod guest_steps;
mod guests;
mod runs;
mod support;
mod system_forms;
mod texts;
mod traces;
