// The requests of a trace.
ghost use Rattle.trace.specs.Texts.{Reads, Small, SmallPair, pair_text, Bare, Numbered, SmallCall, call_text, flat_text};

use crate::numbers::{number_front, read_number};
use frames::calls::Call;

// Two numbers with one space between.
#[tactic(auto, using(crate::proofs::Fronts::one_number))]
fn read_pair(text: &[u8]) -> Option<(u32, u32)>
    ensures { Reads SmallPair pair_text text.now result }
{
    let (left, rest) = number_front(text)?;
    let right = read_number(rest)?;
    Some((left, right))
}

// A call of one word.
fn read_word(line: &[u8]) -> Option<Call>
    ensures { Reads Bare call_text line.now result }
{
    match line {
        b"save" => Some(Call::Save),
        b"restore" => Some(Call::Restore),
        b"depth" => Some(Call::Depth),
        b"spare" => Some(Call::Spare),
        _ => None,
    }
}

// A call with numbers.
#[tactic(auto, using(crate::proofs::Words::write_only))]
fn read_numbered(line: &[u8]) -> Option<Call>
    ensures { Reads Numbered call_text line.now result }
{
    if let Some(register) = line.strip_prefix(b"read ") {
        return read_number(register).map(Call::Read);
    }
    let (register, value) = read_pair(line.strip_prefix(b"write ")?)?;
    Some(Call::Write(register, value))
}

pub fn read_call(line: &[u8]) -> Option<Call>
    ensures reads_exactly_the_calls { Reads SmallCall call_text line.now result }
{
    read_word(line).or_else(|| read_numbered(line))
}

pub fn read_flat(line: &[u8]) -> Option<u32>
    ensures reads_exactly_the_flat_files { Reads Small flat_text line.now result }
{
    read_number(line.strip_prefix(b"flat ")?)
}
