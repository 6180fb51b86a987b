// The numbers of a register file's registers.
ghost use Rattle.std.specs.Prelude.{◌≡◌, ◌-◌, ◌<◌, ◌≤◌};

use refusal::faults::FileFault;

// From 8 to 31: outs, locals and ins, eight of each.
#[derive(Clone, Copy)]
pub struct Register {
    number: u32,
    ghost low: { 8 ≤ number },
    ghost high: { number < 32 },
}

impl TryFrom<u32> for Register {
    ghost use Rattle.frames.specs.Registers.{MakesRegister};

    type Error = FileFault;

    ghost try_from_gives = { λ n r. MakesRegister n r };

    fn try_from(number: u32) -> Result<Register, FileFault> {
        if (8..=31).contains(&number) {
            Ok(Register { number })
        } else {
            Err(FileFault::NoSuchRegister(number))
        }
    }
}

impl Register {
    // How many registers of a file stand before it.
    pub fn offset(self) -> usize
        ensures counts_from_the_first_out { result ≡ self.number - 8 }
    {
        (self.number - 8) as usize
    }
}
