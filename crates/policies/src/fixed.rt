// The fixed policy: two amounts that stay.
use crate::amount::Amount;
use crate::policy::SpillPolicy;
use refusal::faults::SetupFault;

#[derive(Clone, Copy)]
pub struct Fixed {
    spill: Amount,
    fill: Amount,
}

impl Fixed {
    ghost use Rattle.policies.specs.Fixed.{MakesFixed};

    // Two amounts from 1 to 31, or the first that is not.
    pub fn new(spill: u32, fill: u32) -> Result<Fixed, SetupFault>
        ensures makes_the_policy_or_refuses { MakesFixed spill fill result }
    {
        let spill = Amount::new(spill).ok_or(SetupFault::SpillAmount(spill))?;
        let fill = Amount::new(fill).ok_or(SetupFault::FillAmount(fill))?;
        Ok(Fixed { spill, fill })
    }
}

impl SpillPolicy for Fixed {
    ghost use Rattle.policies.specs.Fixed.{fixed_range};

    ghost spills = { λ p. p.spill.windows };

    ghost fills = { λ p. p.fill.windows };

    ghost after_overflow = { λ p. p };

    ghost after_underflow = { λ p. p };

    ghost in_range = { λ p. fixed_range p };

    fn spill_amount(&self) -> u32 {
        u32::from(self.spill)
    }

    fn fill_amount(&self) -> u32 {
        u32::from(self.fill)
    }

    fn overflowed(&mut self) {}

    fn underflowed(&mut self) {}
}
