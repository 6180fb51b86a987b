// An amount of windows that a policy may ask for.
ghost use Rattle.std.specs.Prelude.{◌≤◌};

// From 1 to 31.
#[derive(Clone, Copy)]
pub struct Amount {
    windows: u32,
    ghost some: { 1 ≤ windows },
    ghost few: { windows ≤ 31 },
}

impl Amount {
    ghost use Rattle.std.specs.Prelude.{◌≡◌};
    ghost use Rattle.policies.specs.Amounts.{MakesAmount};

    // None for a number that is not from 1 to 31.
    pub fn new(windows: u32) -> Option<Amount>
        ensures makes_the_amount_or_none { MakesAmount windows result }
    {
        if (1..=31).contains(&windows) {
            Some(Amount { windows })
        } else {
            None
        }
    }
}

impl From<Amount> for u32 {
    ghost use Rattle.std.specs.Prelude.{◌≡◌};

    ghost from_gives = { λ a n. n ≡ a.windows };

    fn from(amount: Amount) -> u32 {
        amount.windows
    }
}
