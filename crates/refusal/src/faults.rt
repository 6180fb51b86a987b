// What each layer refuses, with the value that its place comes from.
ghost use Rattle.std.specs.Prelude.{◌≡◌};
ghost use Rattle.refusal.specs.declared.layers.Layer.{Layer};
ghost use Rattle.refusal.specs.declared.layers.Layer.TheVariants.{File, Setup, Store};
ghost use Rattle.refusal.specs.declared.refusals.Refusal.{Refusal};
ghost use Rattle.refusal.specs.Refusals.{refused, file_refusal, setup_refusal, store_refusal};

use crate::layers::Layer;
use crate::refusals::Refusal;

// What one layer refuses.
pub trait Fault: Copy {
    ghost refusal: { Self → Refusal };

    ghost LAYER: { Layer };

    const LAYER: Layer;

    // Its number in the list of refusals, and the place.
    fn number_and_place(self) -> (u8, u32)
        ensures are_those_of_its_refusal { refused result.0 LAYER result.1 ≡ refusal self };
}

impl<F: Fault> From<F> for Refusal {
    ghost from_gives = { λ fault r. r ≡ F.refusal fault };

    fn from(fault: F) -> Refusal {
        let (number, place) = fault.number_and_place();
        Refusal {
            number,
            layer: F::LAYER,
            place: u64::from(place),
        }
    }
}

// What a register file refuses.
#[derive(Clone, Copy, PartialEq)]
pub enum FileFault {
    // A register number that is not 8 to 31.
    NoSuchRegister(u32),
    // A save at capacity, with the depth told.
    AtCapacity(u32),
    // A restore with one frame left, with the depth told.
    LastFrame(u32),
}

impl Fault for FileFault {
    ghost refusal = { file_refusal };

    ghost LAYER = { File };

    const LAYER: Layer = Layer::File;

    fn number_and_place(self) -> (u8, u32) {
        match self {
            FileFault::NoSuchRegister(register) => (1, register),
            FileFault::AtCapacity(depth) => (2, depth),
            FileFault::LastFrame(depth) => (3, depth),
        }
    }
}

// What is refused before anything is made.
#[derive(Clone, Copy)]
pub enum SetupFault {
    // A ring's number of windows that is not 2 to 32.
    WindowCount(u32),
    // A fixed spill amount that is not 1 to 31.
    SpillAmount(u32),
    // A fixed fill amount that is not 1 to 31.
    FillAmount(u32),
    // A flat file's capacity that is not 1 to 256.
    FlatCapacity(u32),
}

impl Fault for SetupFault {
    ghost refusal = { setup_refusal };

    ghost LAYER = { Setup };

    const LAYER: Layer = Layer::Setup;

    fn number_and_place(self) -> (u8, u32) {
        match self {
            SetupFault::WindowCount(windows) => (4, windows),
            SetupFault::SpillAmount(amount) => (7, amount),
            SetupFault::FillAmount(amount) => (8, amount),
            SetupFault::FlatCapacity(capacity) => (9, capacity),
        }
    }
}

// What a save store refuses.
#[derive(Clone, Copy)]
pub enum StoreFault {
    // A put at capacity, with the number held as it is told.
    Full(u32),
    // A take from none, with the number held as it is told.
    Empty(u32),
}

impl Fault for StoreFault {
    ghost refusal = { store_refusal };

    ghost LAYER = { Store };

    const LAYER: Layer = Layer::Store;

    fn number_and_place(self) -> (u8, u32) {
        match self {
            StoreFault::Full(held) => (5, held),
            StoreFault::Empty(held) => (6, held),
        }
    }
}
