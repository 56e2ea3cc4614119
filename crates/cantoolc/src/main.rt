//! The program: it hands its words, the real files and the standard output to `cli_tool::run`, and
//! exits with the code of what that answers.
#![tactic(auto)]

mod command_line;
#[cfg(test)]
mod fakes;
mod files;
mod sink;
mod telling;

use cli_tool::{Status, run};
use command_line::words;
use files::RealFiles;
use sink::RealSink;
use std::process::ExitCode;

fn main(rt: HostRuntime) -> ExitCode {
    let status = ended(&rt);
    if status == Status::NoMemory {
        // The exit status says as much, so an error here changes nothing.
        let _ = eprintln!(rt; "cantoolc: memory ran out");
    }
    ExitCode::from(status.code())
}

fn ended(rt: &HostRuntime) -> Status {
    let alloc = rt.alloc();
    let Ok(words) = words(rt, alloc) else {
        return Status::NoMemory;
    };
    let mut files = RealFiles::new(rt);
    let mut out = RealSink::new(rt);
    run(alloc, &words, &mut files, &mut out)
}
