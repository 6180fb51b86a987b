// A register file taken apart, frame by frame.
ghost use Rattle.std.specs.Prelude.{◌≡◌, ◌<◌, ◌≤◌, reverse, IfOk};
ghost use Rattle.frames.specs.Frames.{all_frames, word};
ghost use Rattle.listing.specs.Listing.{eight_words};

use frames::file::RegisterFile;
use frames::frame::Frame;
use std::alloc::{AllocError, Global};
use std::array;

// Every frame of the file, newest first. Only when memory runs out is left open.
#[tactic(auto, using(crate::proofs::Unwound::falls, crate::proofs::Unwound::one_moved, crate::proofs::Unwound::newest_first))]
pub fn unwind<F: RegisterFile + Drop>(alloc: Global, mut file: F) -> Result<Vec<Frame>, AllocError>
    ensures gives_every_frame { IfOk result (λ v. v.items ≡ reverse (all_frames (F.RegisterFile.state file))) }
{
    let mut frames = vec![in alloc; newest(&file)]?;
    // Only the oldest frame cannot be closed.
    while file.restore().is_ok() {
        frames.push(newest(&file))?;
    }
    Ok(frames)
}

// The newest frame, read register by register.
#[tactic(auto, using(crate::proofs::Groups::newest_words))]
fn newest<F: RegisterFile>(file: &F) -> Frame
    ensures { result ≡ (F.RegisterFile.state file.now).newest }
{
    Frame {
        ins: group(file, 24),
        locals: group(file, 16),
    }
}

// The outs of the newest frame.
#[tactic(auto, using(crate::proofs::Groups::outs_words))]
pub(crate) fn outs<F: RegisterFile>(file: &F) -> [u32; 8]
    ensures { result ≡ (F.RegisterFile.state file.now).outs }
{
    group(file, 8)
}

// The words of the eight registers from `first` on.
#[tactic(auto, unfolding(crate::specs::Listing::eight_words))]
fn group<F: RegisterFile>(file: &F, first: u32) -> [u32; 8]
    requires { (8 ≤ first) × (first ≤ 24) }
    ensures { result ≡ eight_words (F.RegisterFile.state file.now) first }
{
    array::from_fn(|i| word(file, first + i as u32))
}

fn word<F: RegisterFile>(file: &F, register: u32) -> u32
    requires { (8 ≤ register) × (register < 32) }
    ensures { result ≡ word (F.RegisterFile.state file.now) register }
{
    // The file has every register from 8 to 31.
    file.read(register).unwrap()
}
