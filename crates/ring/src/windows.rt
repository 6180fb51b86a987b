// A ring's windows: their words, and which of them are resident.
use crate::residency::Residency;
use crate::window_count::WindowCount;
use crate::word_table::WordTable;
use frames::register::Register;

#[derive(Clone, Copy)]
pub struct Windows {
    pub(crate) table: WordTable,
    pub(crate) residency: Residency,
}

impl Windows {
    ghost use Rattle.std.specs.Prelude.{◌≡◌, ◌+◌, ◌<◌, ◌≤◌, replicate};
    ghost use Rattle.ring.specs.Cycle.{most_resident};
    ghost use Rattle.ring.specs.Residencies.{Advanced, Retreated, Stands};
    ghost use Rattle.ring.specs.Tables.{count_of, pointer_of, resident_of, words_of};
    ghost use Rattle.ring.specs.Words.{cleared, place_of};

    // Every word is 0, and window 0 is the only one resident.
    pub(crate) fn new(windows: WindowCount) -> Windows
        ensures words_are_zero { words_of result ≡ replicate 512 0 }
        ensures first_is_resident { Stands result.residency windows.count 0 1 }
    {
        Windows {
            table: WordTable::zeros(),
            residency: Residency::new(windows),
        }
    }

    // Where a register's word lies.
    pub(crate) fn place(&self, register: Register) -> usize
        ensures is_its_place { result ≡ place_of (count_of self.now) (pointer_of self.now) register.number }
        ensures is_in_the_table { result < 512 }
    {
        let offset = register.offset();
        if offset < 8 {
            self.residency.below().ins() + offset
        } else {
            self.residency.pointer().locals() + (offset - 8)
        }
    }

    // Gives up the `k` oldest resident windows and opens a new frame.
    pub(crate) fn enter(&mut self, k: u32)
        requires { (k ≤ resident_of self.old) × (resident_of self.old + 1 ≤ most_resident (count_of self.old) + k) }
        ensures pointer_goes_down { Advanced self.old.residency self.new.residency k }
        ensures new_frame_is_cleared { words_of self.new ≡ cleared (words_of self.old) (count_of self.new) (pointer_of self.new) }
    {
        self.residency.advance(k);
        self.table
            .clear(self.residency.pointer(), self.residency.below());
    }

    // Has the `k` windows above the resident ones resident, and closes the newest frame.
    pub(crate) fn leave(&mut self, k: u32)
        requires { (resident_of self.old + k ≤ most_resident (count_of self.old) + 1) × (2 ≤ resident_of self.old + k) }
        ensures pointer_goes_up { Retreated self.old.residency self.new.residency k }
        ensures keeps_the_words { words_of self.new ≡ words_of self.old }
    {
        self.residency.retreat(k);
    }
}
