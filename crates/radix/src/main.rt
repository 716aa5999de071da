//! The program: its words, real files, the standard output and an exit status.
#![tactic(auto)]

mod call;
mod command_line;
mod exit;
mod image_fault;
mod information;
mod last_step;
mod message;
mod places;
mod quoted;
mod real_files;
mod real_sink;
mod source_fault;
mod standard;
mod usage;

use call::{refuse_cut_words, refuse_for_memory, run};
use command_line::read_command_line;
use std::process::ExitCode;

fn main(rt: HostRuntime) -> ExitCode {
    let code = match read_command_line(&rt) {
        Ok(line) if line.is_cut => refuse_cut_words(&rt, &line.words),
        Ok(line) => run(&rt, &line.words),
        Err(_) => refuse_for_memory(&rt),
    };
    ExitCode::from(code)
}

#[cfg(test)]
mod tests;
