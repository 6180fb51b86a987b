// The lines of a trace after the first, each read as a call.
ghost use Rattle.std.specs.Prelude.{IfOk};
ghost use Rattle.trace.specs.Lines.{lines};
ghost use Rattle.script.specs.Scripts.{Scripted};

use crate::faults::{Expected, LineFault};
use frames::calls::Call;
use std::alloc::{AllocError, Global};
use trace::numbered::Lines;
use trace::requests::read_call;

// The calls to make, and the line that ended them, if it was no call.
#[derive(Drop)]
pub struct Script {
    pub calls: Vec<Call>,
    pub fault: Option<LineFault>,
}

// Lines count from 1, and the first chose the file. Only when memory runs out is left open.
#[tactic(auto, using(crate::proofs::Turns::no_call_here, crate::proofs::Turns::call_here, crate::proofs::Turns::all_read))]
pub fn read_script(alloc: Global, requests: &[u8]) -> Result<Script, AllocError>
    ensures reads_the_calls_up_to_the_first_other_line { IfOk result (λ s. Scripted 2 (lines requests.now) s.calls.items s.fault) }
{
    let mut calls = Vec::new(alloc);
    for (line, request) in Lines::new(requests, 2) {
        let Some(call) = read_call(request) else {
            let fault = LineFault::new(line, Expected::Request);
            return Ok(Script {
                calls,
                fault: Some(fault),
            });
        };
        calls.push(call)?;
    }
    Ok(Script { calls, fault: None })
}
