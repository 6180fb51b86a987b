// Windows on their way between a ring and its store.
ghost use Rattle.std.specs.Prelude.{◌≡◌, ◌+◌, ◌<◌, ◌≤◌, length};
ghost use Rattle.ring.specs.Residencies.{window_count};
ghost use Rattle.ring.specs.Tables.{resident_of};
ghost use Rattle.ring.specs.Transfers.{Spilled, Filled};
ghost use Rattle.ring.specs.Words.{window_at};

use crate::residency::Residency;
use crate::windows::Windows;
use crate::word_table::WordTable;
use stores::store::SaveStore;
use stores::window::SavedWindow;

// Puts the `k` oldest resident windows into the store, oldest first. It has room for them, so no put is refused.
pub(super) fn spill<S: SaveStore>(windows: &Windows, store: &mut S, k: u32)
    requires { (k ≤ resident_of windows.now) × (k + length (S.SaveStore.windows store.old) ≤ S.capacity store.old) }
    ensures puts_the_oldest_first { Spilled windows.now (S.SaveStore.windows store.old) (S.SaveStore.windows store.new) k }
    ensures keeps_the_capacity { S.capacity store.new ≡ S.capacity store.old }
{
    for j in 0..k {
        let w = windows.residency.oldest(j);
        store.put(windows.table.window(w)).unwrap();
    }
}

// Moves the `k` newest saved windows to those above the pointer's, in the order taken. The store
// holds as many, so no take is refused.
pub(super) fn fill<S: SaveStore>(residency: Residency, table: &mut WordTable, store: &mut S, k: u32)
    requires { (k < window_count residency) × (k ≤ length (S.SaveStore.windows store.old)) }
    ensures takes_the_newest_first { Filled residency table.new.words (S.SaveStore.windows store.old) (S.SaveStore.windows store.new) k }
    ensures keeps_the_newest_frame { window_at table.new.words residency.pointer ≡ window_at table.old.words residency.pointer }
    ensures keeps_the_capacity { S.capacity store.new ≡ S.capacity store.old }
{
    for j in 0..k {
        let mut saved = SavedWindow::zeros();
        store.take(&mut saved).unwrap();
        table.set_window(residency.target(j), &saved);
    }
}
