//! Machines that are opened or refused, and run by a schedule.

mod bench;
mod drops;
mod opening;
mod runs;
