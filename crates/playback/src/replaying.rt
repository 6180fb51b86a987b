// A trace, replayed on the flat file that its first line chooses.
ghost use Rattle.std.specs.Prelude.{IfOk, string_bytes};
ghost use Rattle.trace.specs.Lines.{lines};
ghost use Rattle.playback.specs.Flats.{FlatOutcome};
ghost use Rattle.playback.specs.LineByLine.{PlaysLineByLine};
ghost use Rattle.playback.specs.Replaying.{Replays, OneOutcome};

use crate::playing::{Playback, play_lines, refused, unchosen};
use frames::flat::FlatFile;
use script::faults::Expected;
use std::alloc::{AllocError, Global};
use trace::lines::split_line;
use trace::requests::read_flat;

// Replays a whole trace on the file that its first line chooses. Only when memory runs out is left open.
#[tactic(auto, using(crate::proofs::Flats::one_flat_outcome, crate::proofs::Flats::no_flat, crate::proofs::Flats::some_flat, crate::proofs::LineByLine::plays_line_by_line))]
pub fn replay(alloc: Global, trace: &[u8]) -> Result<Playback, AllocError>
    ensures replays_every_line { IfOk result (λ p. Replays (lines trace.now) (string_bytes p.text) p.fault) }
    ensures no_trace_has_two_outcomes { OneOutcome Replays }
    ensures scripts_play_line_by_line { PlaysLineByLine }
{
    let (setup, requests) = split_line(trace);
    match read_flat(setup) {
        Some(capacity) => replay_flat(alloc, capacity, requests),
        None => Ok(unchosen(alloc, Expected::Setup)),
    }
}

// The file is made first: where it is refused, no other line is looked at.
#[tactic(auto, using(crate::proofs::Flats::flat_by_lines))]
pub fn replay_flat(alloc: Global, capacity: u32, requests: &[u8]) -> Result<Playback, AllocError>
    ensures plays_every_line_or_refuses { IfOk result (λ p. FlatOutcome capacity (lines requests.now) (string_bytes p.text) p.fault) }
{
    match FlatFile::new(capacity) {
        Ok(file) => play_lines(alloc, file, requests),
        Err(fault) => refused(alloc, fault),
    }
}
