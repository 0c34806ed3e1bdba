// Where a reading stands between two octets.
ghost use Rattle.std.specs.Prelude.{◌≡◌};
ghost use Rattle.octets.specs.Editions.{further};
ghost use Rattle.phases.specs.Spots.{is_open, flat, normal, onward, behind_target};

use crate::{AFTER, HEX, TARGET, on};
use kinds::Place;
use octets::editions::Edition;
use reference_octet::{accepts, next};

// The phase behind the `>` of a target that is no reference.
pub const UNFIT: usize = 13;

// The phase and, in a target, the target's start and the state of its judging as a reference; outside both are 0, and behind a target that
// is no reference the state is.
#[derive(Clone, Copy)]
pub struct Spot {
    pub phase: usize,
    pub target: Place,
    pub judged: usize,
}

// Outside targets.
pub fn flat(phase: usize) -> Spot
    ensures { result ≡ flat phase }
{
    Spot {
        phase,
        target: Place(0),
        judged: 0,
    }
}

// Whether a target is open in this phase.
pub fn is_open(phase: usize) -> bool
    ensures { result ≡ is_open phase }
{
    (TARGET <= phase) & (phase <= HEX)
}

// The spot as it would be handed out, whatever the numbers beside its phase are.
pub fn normal(spot: Spot) -> Spot
    ensures { result ≡ normal spot }
{
    if is_open(spot.phase) {
        return spot;
    }
    flat(spot.phase)
}

// In a target, whose octet leads to this phase.
fn behind_target(spot: Spot, phase: usize, c: u8) -> Spot
    ensures { result ≡ behind_target spot phase c }
{
    let target = spot.target;
    if phase != AFTER {
        return Spot {
            phase,
            target,
            judged: next(spot.judged, c),
        };
    }
    if accepts(spot.judged) {
        return flat(AFTER);
    }
    Spot {
        phase: UNFIT,
        target,
        judged: 0,
    }
}

// The spot behind the octet c, behind which the place `after` of the header is.
pub fn onward(edition: Edition, spot: Spot, after: Place, c: u8) -> Spot
    ensures { result ≡ onward (further edition) spot after.0 c }
{
    let phase = on(edition, spot.phase, c);
    if is_open(spot.phase) {
        return behind_target(spot, phase, c);
    }
    if phase == TARGET {
        return Spot {
            phase,
            target: after,
            judged: 0,
        };
    }
    flat(phase)
}
