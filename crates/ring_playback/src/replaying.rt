// A trace, replayed on the file that its first line chooses.
ghost use Rattle.std.specs.Prelude.{IfOk, string_bytes};
ghost use Rattle.trace.specs.Lines.{lines};
ghost use Rattle.playback.specs.Replaying.{OneOutcome};
ghost use Rattle.ring_playback.specs.Replays.{Replays};

use crate::rings::replay_ring;
use playback::playing::{Playback, unchosen};
use playback::replaying::replay_flat;
use script::faults::Expected;
use std::alloc::{AllocError, Global};
use trace::lines::split_line;
use trace::setups::{Setup, read_setup};

// Replays a whole trace on the file that its first line chooses. Only when memory runs out is left open.
#[tactic(auto, using(crate::proofs::Traces::one_trace_outcome, crate::proofs::Traces::no_setup, crate::proofs::Traces::with_flat, crate::proofs::Traces::with_ring))]
pub fn replay(alloc: Global, trace: &[u8]) -> Result<Playback, AllocError>
    ensures replays_every_line { IfOk result (λ p. Replays (lines trace.now) (string_bytes p.text) p.fault) }
    ensures no_trace_has_two_outcomes { OneOutcome Replays }
{
    let (setup, requests) = split_line(trace);
    match read_setup(setup) {
        Some(Setup::Flat(capacity)) => replay_flat(alloc, capacity, requests),
        Some(Setup::Ring(ring)) => replay_ring(alloc, ring, requests),
        None => Ok(unchosen(alloc, Expected::AnySetup)),
    }
}
