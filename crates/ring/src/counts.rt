// How often a ring moved windows, and how many.
ghost use Rattle.std.specs.Prelude.{◌≡◌, Some};
ghost use Rattle.ring.specs.Movements.{no_counts};
ghost use Rattle.ring.specs.Texts.{counts_text};

use std::fmt;

// Each stops at 2^64 − 1.
#[derive(Clone, Copy, Default)]
pub struct Counts {
    // How often the policy was told of an overflow, and of an underflow.
    pub overflows: u64,
    pub underflows: u64,
    // How many windows the store gained, and lost.
    pub spilled: u64,
    pub filled: u64,
}

impl Counts {
    // A ring as it is made has moved nothing.
    pub(crate) fn zero() -> Counts
        ensures { result ≡ no_counts }
    {
        Counts::default()
    }
}

impl fmt::Display for Counts {
    ghost output = { λ c. Some (counts_text c) };

    fn fmt<W: fmt::Write>(&self, f: &mut fmt::Formatter<W>) -> fmt::Result {
        let Counts {
            overflows,
            underflows,
            spilled,
            filled,
        } = *self;
        write!(
            f,
            "overflows {overflows} underflows {underflows} spilled {spilled} filled {filled}"
        )
    }
}
