// What every spill policy does.
ghost use Rattle.std.specs.Prelude.{◌≡◌, ℕ};
ghost use Rattle.policies.specs.Amounts.{AmountsInRange};

pub trait SpillPolicy {
    // How many windows to move at an overflow, and at an underflow.
    ghost spills: { Self → ℕ };

    ghost fills: { Self → ℕ };

    // The policy after it is told of an overflow, and of an underflow.
    ghost after_overflow: { Self → Self };

    ghost after_underflow: { Self → Self };

    // Both amounts are from 1 to 31.
    ghost in_range: { (p : Self) → AmountsInRange (spills p) (fills p) };

    fn spill_amount(&self) -> u32
        ensures answers_its_amount { result ≡ spills self.now };

    fn fill_amount(&self) -> u32
        ensures answers_its_amount { result ≡ fills self.now };

    fn overflowed(&mut self)
        ensures moves_by_its_rule { self.new ≡ after_overflow self.old };

    fn underflowed(&mut self)
        ensures moves_by_its_rule { self.new ≡ after_underflow self.old };
}
