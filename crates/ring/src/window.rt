// The number of a window.
ghost use Rattle.std.specs.Prelude.{◌<◌};

// Below 32, which is the most windows that a ring may have.
#[derive(Clone, Copy)]
pub(crate) struct Window {
    number: u32,
    ghost few: { number < 32 },
}

impl Window {
    ghost use Rattle.std.specs.Prelude.{◌≡◌, ◌<◌};
    ghost use Rattle.ring.specs.Words.{ins_at, locals_at};

    pub(crate) fn new(number: u32) -> Window
        requires { number < 32 }
        ensures { result.number ≡ number }
    {
        Window { number }
    }

    // Where its locals begin in the words of a ring.
    pub(crate) fn locals(self) -> usize
        ensures { result ≡ locals_at self.number }
    {
        (self.number * 16) as usize
    }

    // Where its ins begin.
    pub(crate) fn ins(self) -> usize
        ensures { result ≡ ins_at self.number }
    {
        self.locals() + 8
    }
}

impl From<Window> for u32 {
    ghost use Rattle.std.specs.Prelude.{◌≡◌};

    ghost from_gives = { λ w n. n ≡ w.number };

    fn from(window: Window) -> u32 {
        window.number
    }
}
