// The words of a ring's windows.
ghost use Rattle.std.specs.Prelude.{◌≡◌, length};

use crate::window::Window;
use frames::frame::Frame;
use stores::window::SavedWindow;

// Window w's locals begin at word 16 × w and its ins eight words above. Its outs are the ins of the window below.
#[derive(Clone, Copy)]
pub struct WordTable {
    words: [u32; 512],
    ghost long: { length words ≡ 512 },
}

impl WordTable {
    ghost use Rattle.std.specs.Prelude.{◌≡◌, ◌+◌, ◌<◌, ◌≤◌, replicate, slice_index, slice_set};
    ghost use Rattle.std.proofs.Math.Seq.{paste};
    ghost use Rattle.stores.specs.Windows.{saved_frame};
    ghost use Rattle.ring.specs.Words.{window_at, with_window, zeroed};

    pub(crate) fn zeros() -> WordTable
        ensures { result.words ≡ replicate 512 0 }
    {
        WordTable { words: [0; 512] }
    }

    pub(crate) fn word(&self, at: usize) -> u32
        requires { at < 512 }
        ensures { result ≡ slice_index self.now.words at }
    {
        self.words[at]
    }

    pub(crate) fn set_word(&mut self, at: usize, word: u32)
        requires { at < 512 }
        ensures { self.new.words ≡ slice_set self.old.words at word }
    {
        self.words[at] = word;
    }

    // Window `w`, as it is saved.
    pub(crate) fn window(&self, w: Window) -> SavedWindow
        ensures { saved_frame result ≡ window_at self.now.words w.number }
    {
        let (locals, ins) = (w.locals(), w.ins());
        let frame = Frame {
            ins: self.words[ins..ins + 8].try_into().unwrap(),
            locals: self.words[locals..locals + 8].try_into().unwrap(),
        };
        SavedWindow { frame }
    }

    // Window `w` becomes the saved one.
    pub(crate) fn set_window(&mut self, w: Window, saved: &SavedWindow)
        ensures { self.new.words ≡ with_window self.old.words w.number saved.now }
    {
        let (locals, ins) = (w.locals(), w.ins());
        self.words[locals..locals + 8].copy_from_slice(&saved.frame.locals);
        self.words[ins..ins + 8].copy_from_slice(&saved.frame.ins);
    }

    // Sets window `w`'s locals and window `below`'s ins to 0.
    #[tactic(auto, using(std::proofs::lemmas::Slice::overwrites))]
    pub(crate) fn clear(&mut self, w: Window, below: Window)
        ensures { self.new.words ≡ zeroed self.old.words w.number below.number }
    {
        let (locals, ins) = (w.locals(), below.ins());
        self.words[locals..locals + 8].fill(0);
        self.words[ins..ins + 8].fill(0);
    }
}
