// A store that is lent is a store, so that a ring can hold one by value that has a lender.
use crate::store::SaveStore;
use crate::window::SavedWindow;
use refusal::faults::StoreFault;

impl<S: SaveStore> SaveStore for &mut S {
    ghost windows = { λ s. S.SaveStore.windows s.now };

    ghost capacity = { λ s. S.SaveStore.capacity s.now };

    ghost within = { λ s. S.SaveStore.within s.now };

    ghost eight = { λ s. S.SaveStore.eight s.now };

    fn put(&mut self, window: SavedWindow) -> Result<(), StoreFault> {
        S::put(self, window)
    }

    fn take(&mut self, to: &mut SavedWindow) -> Result<(), StoreFault> {
        S::take(self, to)
    }

    fn held(&self) -> u32 {
        S::held(self)
    }

    fn spare(&self) -> u32 {
        S::spare(self)
    }
}
