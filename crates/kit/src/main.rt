//! The program `kit`: the top call on real files and standard output.
#![tactic(auto)]

use myi_adapters::Gathering;
use myi_io::FileErr;
use myi_realfiles::{RealFiles, RealSink};
use myi_shell::OpenGate;
use myisamkit::{Status, kit};
use std::io::ErrorKind;
use std::process::ExitCode;
use std::rt::{Clock, Env};
use std::{env, io};

// The words after the program's name; none where they are no text, which is no command either.
fn words<R: Env + AllocGlobal>(rt: &R) -> io::Result<Vec<String>> {
    Ok(env::args(rt)?.skip(1).collect(rt.alloc())?)
}

// The seconds since 1970, or 0 where there is no clock.
fn now(rt: &impl Clock) -> u64 {
    match rt.since_1970() {
        Ok(since) => since.as_secs(),
        Err(_) => 0,
    }
}

fn main(rt: HostRuntime) -> ExitCode {
    let alloc = rt.alloc();
    let words = match words(&rt) {
        Ok(words) => words,
        Err(error) if error.kind() == ErrorKind::OutOfMemory => {
            return ExitCode::from(Status::Memory.number());
        }
        Err(_) => Vec::new(alloc),
    };
    let mut files = Gathering::new(alloc, RealFiles::new(&rt));
    let mut out = RealSink::new(&rt);
    let status = kit(
        &rt,
        alloc,
        &words,
        &mut files,
        &mut out,
        &OpenGate,
        now(&rt),
    );
    match files.flush() {
        Ok(()) => ExitCode::from(status.number()),
        Err(FileErr::Memory) => ExitCode::from(Status::Memory.number()),
        Err(FileErr::Failed) => ExitCode::from(Status::FileFault.number()),
    }
}
