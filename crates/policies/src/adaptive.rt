// The adaptive policy: a count that rises with overflows and falls with underflows.
ghost use Rattle.std.specs.Prelude.{◌≤◌};

use crate::policy::SpillPolicy;

#[derive(Clone, Copy)]
pub struct Adaptive {
    count: u32,
    ghost at_most_three: { count ≤ 3 },
}

impl Adaptive {
    ghost use Rattle.std.specs.Prelude.{◌≡◌, ◌+◌, ◌-◌, min};

    pub fn new() -> Adaptive
        ensures counts_from_zero { result.count ≡ 0 }
    {
        Adaptive { count: 0 }
    }

    // The count after an overflow.
    fn raised(&self) -> u32
        ensures { result ≡ min (self.now.count + 1) 3 }
    {
        self.count.min(2) + 1
    }

    // The count after an underflow.
    fn lowered(&self) -> u32
        ensures { result ≡ self.now.count - 1 }
    {
        self.count.saturating_sub(1)
    }
}

impl SpillPolicy for Adaptive {
    ghost use Rattle.std.specs.Prelude.{◌+◌, ◌-◌};
    ghost use Rattle.policies.specs.Adaptive.{raised, lowered, adaptive_range};

    ghost spills = { λ p. p.count + 1 };

    ghost fills = { λ p. 4 - p.count };

    ghost after_overflow = { λ p. raised p };

    ghost after_underflow = { λ p. lowered p };

    ghost in_range = { λ p. adaptive_range p };

    fn spill_amount(&self) -> u32 {
        self.count + 1
    }

    fn fill_amount(&self) -> u32 {
        4 - self.count
    }

    fn overflowed(&mut self) {
        self.count = self.raised();
    }

    fn underflowed(&mut self) {
        self.count = self.lowered();
    }
}
