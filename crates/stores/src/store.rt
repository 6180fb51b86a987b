// What every save store does, by the list of windows that it holds.
ghost use Rattle.std.specs.Prelude.{◌≡◌, ℕ, ◌-◌, ◌≤◌, List, length};
ghost use Rattle.std.specs.List.{AllByRecursion};
ghost use Rattle.frames.specs.declared.frame.Frame.{Frame};
ghost use Rattle.frames.specs.Frames.{Eight};
ghost use Rattle.stores.specs.Stacks.{told, put_answer, put_after, take_answer, take_after, taken};
ghost use Rattle.stores.specs.Windows.{saved_frame};

use crate::window::SavedWindow;
use refusal::faults::StoreFault;

pub trait SaveStore {
    // The saved windows, oldest first.
    ghost windows: { Self → List Frame };

    ghost capacity: { Self → ℕ };

    ghost within: { (s : Self) → length (windows s) ≤ capacity s };

    ghost eight: { (s : Self) → AllByRecursion Eight (windows s) };

    // Appends a window.
    fn put(&mut self, window: SavedWindow) -> Result<(), StoreFault>
        ensures answers_as_the_list_does { result ≡ put_answer (windows self.old) (capacity self.old) }
        ensures holds_the_list_after { windows self.new ≡ put_after (windows self.old) (capacity self.old) (saved_frame window) }
        ensures keeps_the_capacity { capacity self.new ≡ capacity self.old };

    // Moves the newest window into `to`.
    fn take(&mut self, to: &mut SavedWindow) -> Result<(), StoreFault>
        ensures answers_as_the_list_does { result ≡ take_answer (windows self.old) }
        ensures holds_the_list_after { windows self.new ≡ take_after (windows self.old) }
        ensures gives_the_newest { saved_frame to.new ≡ taken (windows self.old) (saved_frame to.old) }
        ensures keeps_the_capacity { capacity self.new ≡ capacity self.old };

    // The number of windows held, at most 65,535.
    fn held(&self) -> u32
        ensures answers_as_the_list_does { result ≡ told (length (windows self.now)) };

    // How many windows more there may be, at most 65,535.
    fn spare(&self) -> u32
        ensures answers_as_the_list_does { result ≡ told (capacity self.now - length (windows self.now)) };
}
