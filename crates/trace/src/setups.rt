// The first line of a trace, which chooses the register file.
ghost use Rattle.trace.specs.Setups.{SmallPolicy, policy_text, SmallStore, store_text, SmallRing, ring_text, SmallSetup, setup_text};
ghost use Rattle.trace.specs.Texts.{Reads, ReadsFront};

use crate::numbers::{number_front, pair_front};
use crate::requests::read_flat;

// How many windows a ring moves at a time.
#[derive(Clone, Copy)]
pub enum PolicySetup {
    // The spill amount and the fill amount.
    Fixed(u32, u32),
    Adaptive,
}

// Where a ring puts the windows that it saves.
#[derive(Clone, Copy)]
pub enum StoreSetup {
    // The number of windows that a flat store holds at most.
    Flat(u32),
}

#[derive(Clone, Copy)]
pub struct RingSetup {
    pub windows: u32,
    pub policy: PolicySetup,
    pub store: StoreSetup,
}

#[derive(Clone, Copy)]
pub enum Setup {
    // The capacity of a flat file.
    Flat(u32),
    Ring(RingSetup),
}

pub fn read_setup(line: &[u8]) -> Option<Setup>
    ensures reads_exactly_the_setups { Reads SmallSetup setup_text line.now result }
{
    match line.strip_prefix(b"ring ") {
        Some(words) => read_ring(words).map(Setup::Ring),
        None => read_flat(line).map(Setup::Flat),
    }
}

// What follows the word `ring`.
#[tactic(auto, using(crate::proofs::Fronts::one_number, crate::proofs::OneSetup::one_policy))]
fn read_ring(words: &[u8]) -> Option<RingSetup>
    ensures { Reads SmallRing ring_text words.now result }
{
    let (windows, rest) = number_front(words)?;
    let (policy, last) = policy_front(rest)?;
    let store = read_store(last)?;
    Some(RingSetup {
        windows,
        policy,
        store,
    })
}

// A policy that a space ends, and what follows.
#[tactic(auto, using(crate::proofs::OneSetup::fixed_only))]
fn policy_front(words: &[u8]) -> Option<(PolicySetup, &[u8])>
    ensures { ReadsFront SmallPolicy policy_text words.now result }
{
    if let Some(rest) = words.strip_prefix(b"adaptive ") {
        return Some((PolicySetup::Adaptive, rest));
    }
    let ((spill, fill), rest) = pair_front(words.strip_prefix(b"fixed ")?)?;
    Some((PolicySetup::Fixed(spill, fill), rest))
}

fn read_store(words: &[u8]) -> Option<StoreSetup>
    ensures { Reads SmallStore store_text words.now result }
{
    read_flat(words).map(StoreSetup::Flat)
}
