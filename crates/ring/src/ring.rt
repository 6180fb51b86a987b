// The window ring.
use crate::counts::Counts;
use crate::windows::Windows;
use policies::policy::SpillPolicy;
use stores::store::SaveStore;

pub mod making;
pub mod methods;
pub mod transfers;
pub mod traps;

// The newest frames are in the windows, older ones in the store.
#[derive(Drop)]
pub struct WindowRing<S: SaveStore, P: SpillPolicy> {
    windows: Windows,
    store: S,
    policy: P,
    counts: Counts,
}
