// The ring that a first line asks for.
ghost use Rattle.std.specs.Prelude.{◌≡◌, IfOk, string_bytes};
ghost use Rattle.trace.specs.declared.setups.Setup.TheVariants.{Ring};
ghost use Rattle.trace.specs.Lines.{lines};
ghost use Rattle.playback.specs.Flats.{capacity_fault};
ghost use Rattle.ring_playback.specs.declared.rings.Unplayed.TheVariants as unplayed;
ghost use Rattle.ring_playback.specs.Replays.{Outcome};
ghost use Rattle.ring_playback.specs.Rings.{PlayedRing, PlayedWith, Tried, ring_capacity, ring_fault, room_of};

use crate::beside::Compared;
use frames::flat::FlatFile;
use playback::playing::{Playback, refused};
use policies::adaptive::Adaptive;
use policies::fixed::Fixed;
use policies::policy::SpillPolicy;
use refusal::faults::SetupFault;
use ring::ring::WindowRing;
use ring::window_count::WindowCount;
use script::scripts::read_script;
use std::alloc::{AllocError, Global};
use stores::stack::Stack;
use stores::window::SavedWindow;
use trace::setups::{PolicySetup, RingSetup, StoreSetup};

// Why there is no playback.
#[derive(Drop)]
pub(crate) enum Unplayed {
    Refused(SetupFault),
    OutOfMemory(AllocError),
}

impl From<SetupFault> for Unplayed {
    ghost from_gives = { λ fault e. e ≡ unplayed.Refused fault };

    fn from(fault: SetupFault) -> Unplayed {
        Unplayed::Refused(fault)
    }
}

impl From<AllocError> for Unplayed {
    ghost from_gives = { λ oom e. e ≡ unplayed.OutOfMemory oom };

    fn from(error: AllocError) -> Unplayed {
        Unplayed::OutOfMemory(error)
    }
}

// Replays on a ring, unless one of its numbers is refused.
pub(crate) fn replay_ring(
    alloc: Global,
    setup: RingSetup,
    requests: &[u8],
) -> Result<Playback, AllocError>
    ensures { IfOk result (λ p. Outcome (Ring setup) (lines requests.now) (string_bytes p.text) p.fault) }
{
    play_ring(alloc, setup, requests).or_else(|unplayed| match unplayed {
        Unplayed::Refused(fault) => refused(alloc, fault),
        Unplayed::OutOfMemory(error) => Err(error),
    })
}

#[tactic(auto, using(crate::proofs::Policies::with_fixed, crate::proofs::Policies::with_adaptive))]
fn play_ring(alloc: Global, setup: RingSetup, requests: &[u8]) -> Result<Playback, Unplayed>
    ensures { Tried (ring_fault setup) (PlayedWith setup.policy setup.windows (room_of setup.store) (lines requests.now)) result }
{
    let windows = WindowCount::try_from(setup.windows)?;
    let room = room_of(setup.store);
    match setup.policy {
        PolicySetup::Fixed(spill, fill) => {
            play_with(alloc, windows, Fixed::new(spill, fill)?, room, requests)
        }
        PolicySetup::Adaptive => play_with(alloc, windows, Adaptive::new(), room, requests),
    }
}

fn room_of(store: StoreSetup) -> u32
    ensures { result ≡ room_of store }
{
    let StoreSetup::Flat(room) = store;
    room
}

// The flat file beside a ring has the ring's capacity, and may be refused.
fn play_with<P: SpillPolicy + Drop>(
    alloc: Global,
    windows: WindowCount,
    policy: P,
    room: u32,
    requests: &[u8],
) -> Result<Playback, Unplayed>
    ensures { Tried (capacity_fault (ring_capacity windows.count room)) (PlayedRing P.SpillPolicy policy windows.count room (lines requests.now)) result }
{
    let beside = FlatFile::new(windows.most_resident().saturating_add(room))?;
    let script = read_script(alloc, requests)?;
    let mut table = vec![in alloc; SavedWindow::zeros(); room as usize]?;
    let both = Compared {
        ring: WindowRing::new(windows, Stack::new(table.as_mut_slice()), policy),
        beside,
        agrees: true,
    };
    Ok(both.play(alloc, script)?)
}
