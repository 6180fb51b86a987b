// The calls of a trace made on any register file, line by line or as a script.
ghost use Rattle.std.specs.Prelude.{◌≡◌, [], ◌++◌, IfOk, OnOk, string_bytes};
ghost use Rattle.frames.specs.Calls.{answer_to, after_call};
ghost use Rattle.frames.specs.Texts.{answer_text};
ghost use Rattle.trace.specs.Lines.{lines};
ghost use Rattle.script.specs.declared.faults.Expected.TheVariants.{Request};
ghost use Rattle.script.specs.Scripts.{unread};
ghost use Rattle.playback.specs.LineByLine.{Plays};
ghost use Rattle.playback.specs.Playing.{Refused, ended, played_text};

use frames::calls::{Call, perform};
use frames::file::RegisterFile;
use frames::texts::Shown;
use listing::texts::listing;
use refusal::faults::SetupFault;
use refusal::refusals::Refusal;
use script::faults::{Expected, LineFault};
use script::scripts::Script;
use std::alloc::{AllocError, Global};
use trace::numbered::Lines;
use trace::requests::read_call;

// The text to print, and the line at which the replay broke off, if it did.
#[derive(Drop)]
pub struct Playback {
    pub text: String,
    pub fault: Option<LineFault>,
}

// The first line chooses no file.
pub fn unchosen(alloc: Global, expected: Expected) -> Playback
    ensures prints_nothing { string_bytes result.text ≡ [] }
    ensures names_the_first_line { result.fault ≡ unread 1 expected }
{
    Playback {
        text: String::new(alloc),
        fault: Some(LineFault::new(1, expected)),
    }
}

// Where there is no file, its refusal is all that is printed.
pub fn refused(alloc: Global, fault: SetupFault) -> Result<Playback, AllocError>
    ensures prints_the_refusal { IfOk result (λ p. Refused fault (string_bytes p.text) p.fault) }
{
    let refusal = Refusal::from(fault);
    let text = format!(in alloc; "{refusal}\n")?;
    Ok(Playback { text, fault: None })
}

// Makes one call, and adds its answer on a line.
fn answer<F: RegisterFile>(text: &mut String, file: &mut F, call: Call) -> Result<(), AllocError>
    ensures writes_the_answer { OnOk result (string_bytes text.new ≡ string_bytes text.old ++ ended (answer_text (answer_to (F.RegisterFile.state file.old) call))) }
    ensures holds_the_frames_after { F.RegisterFile.state file.new ≡ after_call (F.RegisterFile.state file.old) call }
{
    let answer = Shown(perform(file, call));
    writeln!(text, "{answer}")
}

// The line is no call.
fn broken_off(text: String, line: u64) -> Playback
    ensures keeps_the_text { result.text ≡ text }
    ensures names_the_line { result.fault ≡ unread line Request }
{
    let fault = LineFault::new(line, Expected::Request);
    Playback {
        text,
        fault: Some(fault),
    }
}

// Makes the calls of the lines after the first as each is read, and lists the frames that are left, unless a line is no call.
#[tactic(auto, using(crate::proofs::Turns::all_played))]
pub(crate) fn play_lines<F: RegisterFile + Drop>(
    alloc: Global,
    mut file: F,
    requests: &[u8],
) -> Result<Playback, AllocError>
    ensures plays_the_lines { IfOk result (λ p. Plays 2 (F.RegisterFile.state file) (lines requests.now) (string_bytes p.text) p.fault) }
{
    let mut text = String::new(alloc);
    for (line, request) in Lines::new(requests, 2) {
        let Some(call) = read_call(request) else {
            return Ok(broken_off(text, line));
        };
        answer(&mut text, &mut file, call)?;
    }
    let frames = listing(alloc, file)?;
    text.push_str(frames.as_str())?;
    Ok(Playback { text, fault: None })
}

// Makes the calls of a script on any file, and lists the frames that are left, unless a line ended it.
pub fn play<F: RegisterFile + Drop>(
    alloc: Global,
    mut file: F,
    script: Script,
) -> Result<Playback, AllocError>
    ensures plays_the_script { IfOk result (λ p. (string_bytes p.text ≡ played_text (F.RegisterFile.state file) script.calls.items script.fault) × (p.fault ≡ script.fault)) }
{
    let Script { calls, fault } = script;
    let mut text = String::new(alloc);
    for call in &calls {
        answer(&mut text, &mut file, *call)?;
    }
    if fault.is_none() {
        let frames = listing(alloc, file)?;
        text.push_str(frames.as_str())?;
    }
    Ok(Playback { text, fault })
}
