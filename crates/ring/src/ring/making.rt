// A ring as it is made, and what it has counted since.
ghost use Rattle.std.specs.Prelude.{◌≡◌};
ghost use Rattle.ring.specs.Cycle.{WrapIsModulo};
ghost use Rattle.ring.specs.Fresh.{FreshExactlyOver};
ghost use Rattle.ring.specs.Movements.{begins, moving};
ghost use Rattle.ring.specs.Rings.{frames_of, made_over};

use super::WindowRing;
use crate::counts::Counts;
use crate::window_count::WindowCount;
use crate::windows::Windows;
use policies::policy::SpillPolicy;
use stores::store::SaveStore;

impl<S: SaveStore, P: SpillPolicy> WindowRing<S, P> {
    // A ring over a store, whatever that holds.
    #[tactic(auto, using(crate::proofs::Modulo::wrap_is_modulo))]
    pub fn new(windows: WindowCount, store: S, policy: P) -> WindowRing<S, P>
        ensures stands_for_the_store_and_a_frame { frames_of S.SaveStore result ≡ made_over windows.count (S.SaveStore.windows store) (S.SaveStore.capacity store) }
        ensures has_moved_nothing { moving S.SaveStore result ≡ begins S.SaveStore windows.count store policy }
        ensures is_fresh_exactly_over_an_empty_store { FreshExactlyOver S.SaveStore store result }
        ensures windows_are_numbered_modulo_their_count { WrapIsModulo }
        ensures holds_the_store { result.store ≡ store }
    {
        WindowRing {
            windows: Windows::new(windows),
            store,
            policy,
            counts: Counts::zero(),
        }
    }

    // The four counts.
    pub fn counts(&self) -> Counts
        ensures answers_the_four_counts { result ≡ (moving S.SaveStore self.now).numbers.counts }
    {
        self.counts
    }
}
