// The flat file: every frame in one table of words.
ghost use Rattle.std.specs.Prelude.{◌≡◌, ◌+◌, ◌-◌, ◌<◌, ◌≤◌, length, replicate, slice_set};

use crate::file::RegisterFile;
use crate::register::Register;
use refusal::faults::{FileFault, SetupFault};

// Windows lie downwards: frame i's outs, locals and ins begin at word 16 × (255 − i), so the outs of a frame are the ins of the next.
#[derive(Drop)]
pub struct FlatFile {
    words: [u32; 4104],
    // The number of the newest frame, from 0.
    top: u32,
    capacity: u32,
    ghost long: { length words ≡ 4104 },
    ghost within: { top < capacity },
    ghost bounded: { capacity ≤ 256 },
}

impl FlatFile {
    ghost use Rattle.std.proofs.Math.Seq.{paste};
    ghost use Rattle.frames.specs.Flat.{flat_opened, flat_caller, flat_place, base, MakesFlatFile};

    // A fresh file, or the capacity that is not 1 to 256.
    pub fn new(capacity: u32) -> Result<FlatFile, SetupFault>
        ensures makes_a_fresh_file_or_refuses { MakesFlatFile capacity result }
    {
        if !(1..=256).contains(&capacity) {
            return Err(SetupFault::FlatCapacity(capacity));
        }
        Ok(FlatFile {
            words: [0; 4104],
            top: 0,
            capacity,
        })
    }

    // The frame that a save opens.
    fn opened(&self) -> Result<u32, FileFault>
        ensures { result ≡ flat_opened self.now.top self.now.capacity }
    {
        let frames = self.top + 1;
        if frames < self.capacity {
            Ok(frames)
        } else {
            Err(FileFault::AtCapacity(frames))
        }
    }

    // The frame that a restore goes back to.
    fn caller(&self) -> Result<u32, FileFault>
        ensures { result ≡ flat_caller self.now.top }
    {
        self.top.checked_sub(1).ok_or(FileFault::LastFrame(1))
    }

    // Where the newest frame's window begins.
    fn base(&self) -> usize
        ensures { result ≡ base self.now.top }
    {
        ((255 - self.top) * 16) as usize
    }

    // Where a register's word lies.
    fn place(&self, register: Register) -> usize
        ensures names_the_word { result ≡ flat_place self.now.top register.number }
        ensures lies_in_the_table { result < 4104 }
    {
        self.base() + register.offset()
    }

    fn set_word(&mut self, register: Register, word: u32)
        ensures changes_one_word { self.new.words ≡ slice_set self.old.words (flat_place self.old.top register.number) word }
        ensures keeps_the_newest { self.new.top ≡ self.old.top }
        ensures keeps_the_capacity { self.new.capacity ≡ self.old.capacity }
    {
        let at = self.place(register);
        self.words[at] = word;
    }

    // Sets the newest frame's outs and locals to 0.
    fn clear_newest(&mut self)
        ensures clears_sixteen_words { self.new.words ≡ paste self.old.words (base self.old.top) (replicate 16 0) 16 }
        ensures keeps_the_newest { self.new.top ≡ self.old.top }
        ensures keeps_the_capacity { self.new.capacity ≡ self.old.capacity }
    {
        let from = self.base();
        self.words[from..from + 16].fill(0);
    }
}

impl RegisterFile for FlatFile {
    ghost use Rattle.frames.specs.Flat.{flat_state};
    ghost use Rattle.frames.specs.FlatShape.{flat_shape};

    ghost state = { λ f. flat_state f };

    ghost shape = { λ f. flat_shape f };

    fn read(&self, register: u32) -> Result<u32, FileFault> {
        let register = Register::try_from(register)?;
        Ok(self.words[self.place(register)])
    }

    fn write(&mut self, register: u32, word: u32) -> Result<(), FileFault> {
        self.set_word(Register::try_from(register)?, word);
        Ok(())
    }

    fn save(&mut self) -> Result<(), FileFault> {
        self.top = self.opened()?;
        self.clear_newest();
        Ok(())
    }

    fn restore(&mut self) -> Result<(), FileFault> {
        self.top = self.caller()?;
        Ok(())
    }

    #[tactic(auto, using(crate::proofs::Flats::told_flat))]
    fn depth(&self) -> u32 {
        self.top + 1
    }

    #[tactic(auto, using(crate::proofs::Flats::told_flat))]
    fn spare(&self) -> u32 {
        self.capacity - self.depth()
    }
}
