// The flat store: a stack of saved windows.
ghost use Rattle.std.specs.Prelude.{map, length};
ghost use Rattle.stores.specs.Tables.{contents};
ghost use Rattle.stores.specs.Windows.{saved_frame};
ghost use Rattle.stores.specs.FlatShape.{flat_within, flat_eight};

use crate::stack::Stack;
use crate::store::SaveStore;
use crate::window::SavedWindow;
use refusal::faults::StoreFault;

pub type FlatStore<'a> = Stack<'a, SavedWindow>;

impl SaveStore for Stack<'_, SavedWindow> {
    ghost windows = { λ s. map saved_frame (contents s) };

    ghost capacity = { λ s. length s.table.now };

    ghost within = { λ s. flat_within s };

    ghost eight = { λ s. flat_eight s };

    fn put(&mut self, window: SavedWindow) -> Result<(), StoreFault> {
        Stack::put(self, window)
    }

    fn take(&mut self, to: &mut SavedWindow) -> Result<(), StoreFault> {
        Stack::take(self, to)
    }

    fn held(&self) -> u32 {
        Stack::held(self)
    }

    fn spare(&self) -> u32 {
        Stack::spare(self)
    }
}
