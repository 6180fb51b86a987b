// A number as a trace writes it.
ghost use Rattle.std.specs.Prelude.{decimal, Decides};
ghost use Rattle.trace.specs.Texts.{Plain, Reads, ReadsFront, Small, SmallPair, pair_text};

use crate::lines::split_once;
use std::str;

// `parse` would take a plus and leading zeros, which no number is written with.
fn is_plain(text: &[u8]) -> bool
    ensures { Decides result (Plain text.now) }
{
    match text {
        [] | [b'+', ..] => false,
        [b'0', more @ ..] => more.is_empty(),
        _ => true,
    }
}

// Reads back exactly the decimals of 32 bits: no sign, no leading zero, at least one digit.
#[tactic(auto, using(crate::proofs::Decimals::decimal_plain, crate::proofs::Decimals::reads_parsed))]
pub fn read_number(text: &[u8]) -> Option<u32>
    ensures reads_exactly_the_decimals { Reads Small decimal text.now result }
{
    if !is_plain(text) {
        return None;
    }
    str::from_utf8(text).ok()?.parse().ok()
}

// A number that a space ends, and what follows. A number has no space, so the first one ends it.
#[tactic(auto, using(crate::proofs::Fronts::front_is, crate::proofs::Fronts::cut_there))]
pub(crate) fn number_front(text: &[u8]) -> Option<(u32, &[u8])>
    ensures { ReadsFront Small decimal text.now result }
{
    let (digits, rest) = split_once(text, b' ')?;
    Some((read_number(digits)?, rest))
}

// Two numbers that a space ends, and what follows.
#[tactic(auto, using(crate::proofs::Fronts::one_number, crate::proofs::Fronts::pair_then))]
pub(crate) fn pair_front(text: &[u8]) -> Option<((u32, u32), &[u8])>
    ensures { ReadsFront SmallPair pair_text text.now result }
{
    let (left, after) = number_front(text)?;
    let (right, rest) = number_front(after)?;
    Some(((left, right), rest))
}
