// What a ring answers as a register file, and what it moves.
ghost use Rattle.std.specs.Prelude.{◌≡◌, ◌+◌, min};
ghost use Rattle.frames.specs.Frames.{save_answer, save_after, restore_answer, restore_after, write_answer, write_after};
ghost use Rattle.ring.specs.Cycle.{most_resident};
ghost use Rattle.ring.specs.Movements.{moving, ring_effects, room_for_frames, saves, restores, spill_size, fill_size};
ghost use Rattle.ring.specs.Rings.{frames_of};
ghost use Rattle.ring.specs.RingShape.{ring_shape};
ghost use Rattle.ring.specs.Tables.{count_of};
ghost use Rattle.ring.specs.Transfers.{Spills, Fills};

use super::WindowRing;
use super::transfers::{fill, spill};
use super::traps::{note_overflow, note_underflow};
use frames::file::RegisterFile;
use frames::register::Register;
use policies::policy::SpillPolicy;
use refusal::faults::FileFault;
use stores::store::SaveStore;

impl<S: SaveStore, P: SpillPolicy> WindowRing<S, P> {
    // How many windows a trap moves: the policy's amount, as far as the windows and the store's `limit` allow.
    fn trap_size(&self, amount: u32, limit: u32) -> u32
        ensures { result ≡ min (min amount (most_resident (count_of self.now.windows))) limit }
    {
        let most = self.windows.residency.most_resident();
        amount.min(most).min(limit)
    }

    // How many windows go at an overflow.
    fn spill_size(&self) -> u32
        ensures { result ≡ spill_size (P.SpillPolicy.spills self.now.policy) (moving S.SaveStore self.now).numbers }
    {
        self.trap_size(self.policy.spill_amount(), self.store.spare())
    }

    // How many windows come at an underflow.
    fn fill_size(&self) -> u32
        ensures { result ≡ fill_size (P.SpillPolicy.fills self.now.policy) (moving S.SaveStore self.now).numbers }
    {
        self.trap_size(self.policy.fill_amount(), self.store.held())
    }
}

impl<S: SaveStore, P: SpillPolicy> RegisterFile for WindowRing<S, P> {
    ghost state = { λ x. frames_of S.SaveStore x };

    ghost shape = { λ x. ring_shape S.SaveStore x };

    ghost effects = { ring_effects S.SaveStore P.SpillPolicy };

    fn read(&self, register: u32) -> Result<u32, FileFault> {
        let at = self.windows.place(Register::try_from(register)?);
        Ok(self.windows.table.word(at))
    }

    fn write(&mut self, register: u32, word: u32) -> Result<(), FileFault>
        ensures answers_as_the_frames_do { result ≡ write_answer register }
        ensures holds_the_frames_after { frames_of S.SaveStore self.new ≡ write_after (frames_of S.SaveStore self.old) register word }
        ensures moves_nothing { moving S.SaveStore self.new ≡ moving S.SaveStore self.old }
        ensures keeps_the_store { self.new.store ≡ self.old.store }
    {
        let at = self.windows.place(Register::try_from(register)?);
        self.windows.table.set_word(at, word);
        Ok(())
    }

    fn save(&mut self) -> Result<(), FileFault>
        ensures answers_as_the_frames_do { result ≡ save_answer (frames_of S.SaveStore self.old) }
        ensures holds_the_frames_after { frames_of S.SaveStore self.new ≡ save_after (frames_of S.SaveStore self.old) }
        ensures moves_as_a_save { moving S.SaveStore self.new ≡ saves P.SpillPolicy (moving S.SaveStore self.old) }
        ensures puts_the_oldest_windows { Spills S.SaveStore P.SpillPolicy self.old self.new }
    {
        let residency = self.windows.residency;
        if residency.resident() < residency.most_resident() {
            self.windows.enter(0);
            return Ok(());
        }
        let k = self.spill_size();
        // No amount is 0, so it is the store that has no spare.
        if k == 0 {
            return Err(FileFault::AtCapacity(self.depth()));
        }
        spill(&self.windows, &mut self.store, k);
        note_overflow(&mut self.policy, &mut self.counts, k);
        self.windows.enter(k);
        Ok(())
    }

    fn restore(&mut self) -> Result<(), FileFault>
        ensures answers_as_the_frames_do { result ≡ restore_answer (frames_of S.SaveStore self.old) }
        ensures holds_the_frames_after { frames_of S.SaveStore self.new ≡ restore_after (frames_of S.SaveStore self.old) }
        ensures moves_as_a_restore { moving S.SaveStore self.new ≡ restores P.SpillPolicy (moving S.SaveStore self.old) }
        ensures takes_the_newest_windows { Fills S.SaveStore P.SpillPolicy self.old self.new }
    {
        if self.windows.residency.resident() > 1 {
            self.windows.leave(0);
            return Ok(());
        }
        let k = self.fill_size();
        // No amount is 0, so it is the store that is empty.
        if k == 0 {
            return Err(FileFault::LastFrame(self.depth()));
        }
        fill(
            self.windows.residency,
            &mut self.windows.table,
            &mut self.store,
            k,
        );
        note_underflow(&mut self.policy, &mut self.counts, k);
        self.windows.leave(k);
        Ok(())
    }

    #[tactic(auto, using(crate::proofs::Depths::ring_depth))]
    fn depth(&self) -> u32 {
        (self.windows.residency.resident() + self.store.held()).min(65536)
    }

    #[tactic(auto, using(crate::proofs::Depths::ring_depth))]
    fn spare(&self) -> u32 {
        let residency = self.windows.residency;
        let free = residency.most_resident() - residency.resident();
        (free + self.store.spare()).min(65535)
    }
}
