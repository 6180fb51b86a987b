// The text of the frames.
ghost use Rattle.std.specs.Prelude.{◌≡◌, IfOk, Some, string_bytes};
ghost use Rattle.listing.specs.Listing.{words_text, listing_text};

use crate::unwinding::{outs, unwind};
use frames::file::RegisterFile;
use std::alloc::{AllocError, Global};
use std::fmt;

// A line for each frame, oldest first, and one for the outs of the newest. Only when memory runs out is left open.
pub fn listing<F: RegisterFile + Drop>(alloc: Global, file: F) -> Result<String, AllocError>
    ensures lists_every_frame_and_the_outs { IfOk result (λ t. string_bytes t ≡ listing_text (F.RegisterFile.state file)) }
{
    // Unwinding changes the outs, so they are read before.
    let outs = outs(&file);
    let frames = unwind(alloc, file)?;
    let mut text = String::new(alloc);
    for (i, frame) in frames.iter().rev().enumerate() {
        let number = i + 1;
        let ins = Words(&frame.ins);
        let locals = Words(&frame.locals);
        writeln!(text, "frame {number} ins{ins} locals{locals}")?;
    }
    writeln!(text, "outs{}", Words(&outs))?;
    Ok(text)
}

// Each word after a space.
#[derive(Clone, Copy)]
struct Words<'a>(&'a [u32]);

impl fmt::Display for Words<'_> {
    ghost output = { λ w. Some (words_text w.0.now) };

    #[tactic(auto, unfolding(crate::specs::Listing::words_text))]
    fn fmt<W: fmt::Write>(&self, f: &mut fmt::Formatter<W>) -> fmt::Result {
        for word in self.0 {
            write!(f, " {word}")?;
        }
        Ok(())
    }
}
