// Replays the trace on standard input, and prints each answer and the frames that are left.
#![tactic(auto)]

use playback::replaying::replay;
use script::faults::LineFault;
use std::alloc::AllocError;
use std::io;
use std::io::Read;
use std::process::ExitCode;
use thiserror::Error;

// Why a run ended early.
#[derive(Debug, Drop, Error)]
enum Trouble {
    #[error("standard input cannot be read: {0}")]
    Input(io::Error),
    #[error("standard output cannot be written: {0}")]
    Output(io::Error),
    #[error("out of memory")]
    Memory(#[from] AllocError),
    #[error("{0}")]
    Line(LineFault),
}

fn run(rt: &HostRuntime) -> Result<(), Trouble> {
    let mut trace = Vec::new(rt.alloc());
    rt.stdin().read_to_end(&mut trace).map_err(Trouble::Input)?;
    let playback = replay(rt.alloc(), trace.as_slice())?;
    rt.write_all(playback.text.as_bytes())
        .map_err(Trouble::Output)?;
    playback
        .fault
        .map_or(Ok(()), |fault| Err(Trouble::Line(fault)))
}

fn main(rt: HostRuntime) -> ExitCode {
    match run(&rt) {
        Ok(()) => ExitCode::SUCCESS,
        Err(trouble) => {
            let _ = eprintln!(rt; "replay: {trouble}");
            ExitCode::FAILURE
        },
    }
}
