// Which windows of a ring are resident, and how a save and a restore move them.
ghost use Rattle.std.specs.Prelude.{◌≡◌, ◌+◌, ◌-◌, ◌^◌, ◌<◌, ◌≤◌, bit_and, bit_or, count_ones};
ghost use Rattle.ring.specs.Cycle.{mask_of, most_resident, wrap};

use crate::window::Window;
use crate::window_count::WindowCount;

// The resident windows are the pointer's and those following it upwards, from 1 to the limit of them.
// Bit w of the mask is 1 exactly when window w is not resident.
#[derive(Clone, Copy)]
pub struct Residency {
    windows: WindowCount,
    pointer: u32,
    mask: u32,
    ghost inside: { pointer < windows.count },
    ghost some_resident: { count_ones mask < windows.count },
    ghost within_the_limit: { windows.count ≤ most_resident windows.count + count_ones mask },
    ghost contiguous: { mask ≡ mask_of windows.count pointer (windows.count - count_ones mask) },
}

// x modulo the number of windows.
fn wrapped(windows: WindowCount, x: u32) -> Window
    requires { x < windows.count + windows.count }
    ensures { result.number ≡ wrap windows.count x }
{
    let n = u32::from(windows);
    Window::new(if x < n { x } else { x - n })
}

// The mask with window w not resident.
fn with_bit(mask: u32, w: Window) -> u32
    ensures { result ≡ bit_or mask (2 ^ w.number) }
{
    mask | 1 << u32::from(w)
}

// The mask with window w resident.
fn without_bit(mask: u32, w: Window) -> u32
    ensures { result ≡ bit_and mask (4294967295 - 2 ^ w.number) }
{
    mask & !(1 << u32::from(w))
}

// The mask with window 0 alone resident.
#[tactic(auto, using(crate::proofs::Turns::mask_of_one, crate::proofs::Turns::mask_wider))]
fn first_mask(windows: WindowCount) -> u32
    ensures { result ≡ mask_of windows.count 0 1 }
{
    let mut mask = 0;
    for w in 1..u32::from(windows) {
        mask = with_bit(mask, Window::new(w));
    }
    mask
}

impl Residency {
    ghost use Rattle.std.specs.Prelude.{◌≡◌, ◌+◌, ◌-◌, ◌<◌, ◌≤◌};
    ghost use Rattle.ring.specs.Cycle.{down, mask_of, most_resident, up, wrap};
    ghost use Rattle.ring.specs.Residencies.{Advanced, Retreated, Stands, resident_count, window_count};

    // Window 0 is the pointer's and the only one resident.
    #[tactic(auto, using(crate::proofs::Turns::ghost_fields, crate::proofs::Turns::resident_of_mask))]
    pub(crate) fn new(windows: WindowCount) -> Residency
        ensures { Stands result windows.count 0 1 }
    {
        Residency {
            windows,
            pointer: 0,
            mask: first_mask(windows),
        }
    }

    // The most windows that may be resident at once.
    pub(crate) fn most_resident(&self) -> u32
        ensures { result ≡ most_resident (window_count self.now) }
    {
        self.windows.most_resident()
    }

    pub(crate) fn pointer(&self) -> Window
        ensures { result.number ≡ self.now.pointer }
    {
        Window::new(self.pointer)
    }

    // How many windows are resident.
    pub(crate) fn resident(&self) -> u32
        ensures { result ≡ resident_count self.now }
    {
        u32::from(self.windows) - self.mask.count_ones()
    }

    // The window `by` above the pointer's.
    fn above(&self, by: u32) -> Window
        requires { by < window_count self.now }
        ensures { result.number ≡ wrap (window_count self.now) (self.now.pointer + by) }
    {
        wrapped(self.windows, self.pointer + by)
    }

    // The window below the pointer's: it has the pointer's outs.
    pub(crate) fn below(&self) -> Window
        ensures { result.number ≡ down (window_count self.now) self.now.pointer }
    {
        let n = u32::from(self.windows);
        wrapped(self.windows, self.pointer + n - 1)
    }

    // The resident window that `j` others are older than.
    pub(crate) fn oldest(&self, j: u32) -> Window
        requires { j < resident_count self.now }
        ensures { result.number ≡ wrap (window_count self.now) (self.now.pointer + (resident_count self.now - (j + 1))) }
    {
        self.above(self.resident() - j - 1)
    }

    // The window that the `j`th taken from the store goes to, from 0.
    pub(crate) fn target(&self, j: u32) -> Window
        requires { j + 1 < window_count self.now }
        ensures { result.number ≡ wrap (window_count self.now) (self.now.pointer + (j + 1)) }
    {
        self.above(j + 1)
    }

    // The mask once the `k` oldest resident windows are given up and the window below is resident.
    #[tactic(auto, using(crate::proofs::Turns::mask_spilled, crate::proofs::Turns::mask_down))]
    fn advanced_mask(&self, k: u32) -> u32
        requires { k ≤ resident_count self.now }
        ensures { result ≡ mask_of (window_count self.now) (down (window_count self.now) self.now.pointer) (resident_count self.now + 1 - k) }
    {
        let mut mask = self.mask;
        for j in 0..k {
            mask = with_bit(mask, self.oldest(j));
        }
        without_bit(mask, self.below())
    }

    // The mask once the `k` windows above the resident ones are resident and the pointer's is not.
    #[tactic(auto, using(crate::proofs::Turns::mask_filled, crate::proofs::Turns::mask_up))]
    fn retreated_mask(&self, k: u32) -> u32
        requires { resident_count self.now + k ≤ window_count self.now }
        ensures { result ≡ mask_of (window_count self.now) (up (window_count self.now) self.now.pointer) (resident_count self.now + k - 1) }
    {
        let mut mask = self.mask;
        for j in 0..k {
            mask = without_bit(mask, self.above(self.resident() + j));
        }
        with_bit(mask, self.pointer())
    }

    // The `k` oldest resident windows are given up, and then the pointer goes down by one. It is one step, since
    // `k` may be all of them.
    #[tactic(auto, using(crate::proofs::Turns::ghost_fields, crate::proofs::Turns::resident_of_mask))]
    pub(crate) fn advance(&mut self, k: u32)
        requires { (k ≤ resident_count self.old) × (resident_count self.old + 1 ≤ most_resident (window_count self.old) + k) }
        ensures { Advanced self.old self.new k }
    {
        *self = Residency {
            windows: self.windows,
            pointer: u32::from(self.below()),
            mask: self.advanced_mask(k),
        };
    }

    // The `k` windows above the resident ones become resident, and then the pointer goes up by one.
    #[tactic(auto, using(crate::proofs::Turns::ghost_fields, crate::proofs::Turns::resident_of_mask))]
    pub(crate) fn retreat(&mut self, k: u32)
        requires { (resident_count self.old + k ≤ most_resident (window_count self.old) + 1) × (2 ≤ resident_count self.old + k) }
        ensures { Retreated self.old self.new k }
    {
        *self = Residency {
            windows: self.windows,
            pointer: u32::from(self.above(1)),
            mask: self.retreated_mask(k),
        };
    }
}
