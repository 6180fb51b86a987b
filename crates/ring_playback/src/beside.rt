// Calls made on a ring, and on a file beside it that has to agree.
ghost use Rattle.std.specs.Prelude.{◌≡◌, true, ◌&&◌, ◌++◌, IfOk, string_bytes, OnOk};
ghost use Rattle.frames.specs.Calls.{answer_to, after_call, after_calls};
ghost use Rattle.listing.specs.Listing.{listing_text};
ghost use Rattle.ring.specs.Movements.{moving, moves_by, moves_by_all};
ghost use Rattle.ring.specs.Rings.{frames_of};
ghost use Rattle.playback.specs.Playing.{answers_text};
ghost use Rattle.ring_playback.specs.Beside.{ScriptTold, agreement_text, summary_text};

use frames::calls::{Answer, Call, perform};
use frames::file::RegisterFile;
use frames::texts::Shown;
use listing::texts::listing;
use playback::playing::Playback;
use policies::policy::SpillPolicy;
use ring::ring::WindowRing;
use script::scripts::Script;
use std::alloc::{AllocError, Global};
use stores::store::SaveStore;

// A ring, and a file beside it that stands for the same frames.
#[derive(Drop)]
pub(crate) struct Compared<S: SaveStore, P: SpillPolicy, F: RegisterFile> {
    pub(crate) ring: WindowRing<S, P>,
    pub(crate) beside: F,
    // Whether each answer was the same.
    pub(crate) agrees: bool,
    ghost same_frames: { F.RegisterFile.state beside ≡ frames_of S.SaveStore ring },
    ghost same_answers: { agrees ≡ true },
}

impl<S: SaveStore + Drop, P: SpillPolicy + Drop, F: RegisterFile + Drop> Compared<S, P, F> {
    // Makes the calls of a script on both, and sums up, unless a line ended it.
    pub(crate) fn play(mut self, alloc: Global, script: Script) -> Result<Playback, AllocError>
        ensures { IfOk result (λ p. ScriptTold S.SaveStore P.SpillPolicy self.ring script.calls.items script.fault (string_bytes p.text) p.fault) }
    {
        let Script { calls, fault } = script;
        let mut text = String::new(alloc);
        self.answer(&mut text, calls.as_slice())?;
        if fault.is_none() {
            self.sum_up(alloc, &mut text)?;
        }
        Ok(Playback { text, fault })
    }

    // Makes the calls on both, and adds each answer of the ring on a line.
    fn answer(&mut self, text: &mut String, calls: &[Call]) -> Result<(), AllocError>
        ensures writes_each_answer { OnOk result (string_bytes text.new ≡ string_bytes text.old ++ answers_text (frames_of S.SaveStore self.old.ring) calls.now) }
        ensures holds_the_frames_after { OnOk result (frames_of S.SaveStore self.new.ring ≡ after_calls (frames_of S.SaveStore self.old.ring) calls.now) }
        ensures moves_as_the_calls_do { OnOk result (moving S.SaveStore self.new.ring ≡ moves_by_all P.SpillPolicy (moving S.SaveStore self.old.ring) calls.now) }
    {
        for call in calls {
            let answer = Shown(self.perform(*call));
            writeln!(text, "{answer}")?;
        }
        Ok(())
    }

    // Makes one call on both, and gives the ring's answer.
    fn perform(&mut self, call: Call) -> Answer
        ensures answers_as_the_frames_do { result ≡ answer_to (frames_of S.SaveStore self.old.ring) call }
        ensures holds_the_frames_after { frames_of S.SaveStore self.new.ring ≡ after_call (frames_of S.SaveStore self.old.ring) call }
        ensures moves_as_the_call_does { moving S.SaveStore self.new.ring ≡ moves_by P.SpillPolicy (moving S.SaveStore self.old.ring) call }
    {
        let answer = perform(&mut self.ring, call);
        let expected = perform(&mut self.beside, call);
        self.agrees = self.agrees && answer == expected;
        answer
    }

    // Adds the ring's frames, whether the file beside it agrees to the end, and the counts.
    fn sum_up(self, alloc: Global, text: &mut String) -> Result<(), AllocError>
        ensures { OnOk result (string_bytes text.new ≡ string_bytes text.old ++ summary_text (frames_of S.SaveStore self.ring) (moving S.SaveStore self.ring).numbers.counts) }
    {
        // Listing unwinds the ring, which would count.
        let counts = self.ring.counts();
        let (frames, agrees) = self.list(alloc)?;
        let agreement = agreement(agrees);
        write!(text, "{frames}{agreement}\n{counts}\n")
    }

    // The ring's frames, and whether the file beside it was left with the same.
    fn list(self, alloc: Global) -> Result<(String, bool), AllocError>
        ensures { IfOk result (λ listed. (string_bytes listed.0 ≡ listing_text (frames_of S.SaveStore self.ring)) × (listed.1 ≡ true)) }
    {
        let Compared {
            ring,
            beside,
            agrees,
        } = self;
        let frames = listing(alloc, ring)?;
        let expected = listing(alloc, beside)?;
        let same = frames == expected;
        Ok((frames, agrees && same))
    }
}

fn agreement(agrees: bool) -> &'static str
    ensures { result.now ≡ agreement_text agrees }
{
    if agrees {
        "agrees with a flat file"
    } else {
        "differs from a flat file"
    }
}
