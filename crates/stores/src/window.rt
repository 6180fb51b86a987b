// A saved window.
ghost use Rattle.std.specs.Prelude.{◌≡◌, length};

use frames::frame::Frame;

// A frame whose type carries that it has eight words in each group, so that what a store holds has them too.
#[derive(Clone, Copy)]
pub struct SavedWindow {
    pub frame: Frame,
    ghost eight_ins: { length frame.ins ≡ 8 },
    ghost eight_locals: { length frame.locals ≡ 8 },
}

impl SavedWindow {
    ghost use Rattle.frames.specs.Frames.{frame_of, zeros};
    ghost use Rattle.stores.specs.Windows.{saved_frame};

    // A place for a window to be taken to.
    pub fn zeros() -> SavedWindow
        ensures every_word_is_0 { saved_frame result ≡ frame_of zeros zeros }
    {
        let frame = Frame {
            ins: [0; 8],
            locals: [0; 8],
        };
        SavedWindow { frame }
    }
}
