// A call on a register file, and its answer, as values.
ghost use Rattle.std.specs.Prelude.{◌≡◌};
ghost use Rattle.frames.specs.Calls.{answer_to, after_call};
ghost use Rattle.frames.specs.Laws.{Performed, FrameLaws};

use crate::file::RegisterFile;
use refusal::faults::FileFault;

#[derive(Clone, Copy)]
pub enum Call {
    Save,
    Restore,
    Read(u32),
    Write(u32, u32),
    Depth,
    Spare,
}

// What a call answers that is not refused.
#[derive(Clone, Copy, PartialEq)]
pub enum Reply {
    Accepted,
    Word(u32),
    Depth(u32),
    Spare(u32),
}

pub type Answer = Result<Reply, FileFault>;

fn dispatch<F: RegisterFile>(file: &mut F, call: Call) -> Answer
    ensures answers_as_the_frames_do { result ≡ answer_to (F.state file.old) call }
    ensures holds_the_frames_after { F.state file.new ≡ after_call (F.state file.old) call }
    ensures moves_as_the_file_does { F.effects.Moves file.old call file.new }
{
    match call {
        Call::Save => file.save().map(|()| Reply::Accepted),
        Call::Restore => file.restore().map(|()| Reply::Accepted),
        Call::Read(register) => file.read(register).map(Reply::Word),
        Call::Write(register, word) => file.write(register, word).map(|()| Reply::Accepted),
        Call::Depth => Ok(Reply::Depth(file.depth())),
        Call::Spare => Ok(Reply::Spare(file.spare())),
    }
}

// Performs one call on any register file.
pub fn perform<F: RegisterFile>(file: &mut F, call: Call) -> Answer
    ensures performs_the_call { Performed (F.state file.old) call result (F.state file.new) }
    ensures moves_as_the_file_does { F.effects.Moves file.old call file.new }
    ensures frames_keep_their_laws { FrameLaws }
{
    dispatch(file, call)
}
