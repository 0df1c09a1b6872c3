//! The program `sleigh`: the tool over the files of the machine, its standard output, and the emulator.
#![tactic(auto)]

mod calling;

use crate::calling::call_tool;
use sl_emu::KeepingEmu;
use sl_outside::{DiskFiles, StdSink};
use sl_outside_buffered::BufferedSink;
use sl_tool::Status;
use std::io::{self, ErrorKind};
use std::process::ExitCode;

fn main(rt: HostRuntime) -> ExitCode {
    let status = match words(&rt) {
        Ok(words) => called(&rt, words.as_slice()),
        Err(error) if error.kind() == ErrorKind::OutOfMemory => Status::NoMemory,
        // Words that aren't UTF-8 ask for nothing that the tool does.
        Err(_) => called(&rt, &[]),
    };
    status.exit_code()
}

fn words(rt: &HostRuntime) -> io::Result<Vec<String>> {
    let words = std::env::args(rt)?.collect(rt.alloc())?;
    Ok(words)
}

fn called(rt: &HostRuntime, words: &[String]) -> Status {
    let alloc = rt.alloc();
    let mut files = DiskFiles::new(alloc, rt);
    let Ok(mut out) = BufferedSink::new(alloc, StdSink::new(rt)) else {
        return Status::NoMemory;
    };
    let mut runner = KeepingEmu::new(alloc);
    call_tool(alloc, words, &mut files, &mut out, &mut runner)
}
