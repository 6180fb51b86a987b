// How many windows a ring has.
ghost use Rattle.std.specs.Prelude.{◌≤◌};
ghost use Rattle.ring.specs.Cycle.{most_resident};

use refusal::faults::SetupFault;

// From 2 to 32: a ring can be made of every such count.
#[derive(Clone, Copy)]
pub struct WindowCount {
    count: u32,
    ghost some_resident: { 1 ≤ most_resident count },
    ghost few: { count ≤ 32 },
}

impl TryFrom<u32> for WindowCount {
    ghost use Rattle.ring.specs.WindowCounts.{MakesWindowCount};

    type Error = SetupFault;

    ghost try_from_gives = { MakesWindowCount };

    fn try_from(count: u32) -> Result<WindowCount, SetupFault> {
        if (2..=32).contains(&count) {
            Ok(WindowCount { count })
        } else {
            Err(SetupFault::WindowCount(count))
        }
    }
}

impl From<WindowCount> for u32 {
    ghost use Rattle.std.specs.Prelude.{◌≡◌};

    ghost from_gives = { λ c n. n ≡ c.count };

    fn from(windows: WindowCount) -> u32 {
        windows.count
    }
}

impl WindowCount {
    ghost use Rattle.std.specs.Prelude.{◌≡◌};
    ghost use Rattle.ring.specs.Cycle.{most_resident};

    // The most windows that may be resident at once.
    pub fn most_resident(self) -> u32
        ensures answers_the_limit { result ≡ most_resident self.count }
    {
        self.count - 1
    }
}
