// From a spot on: in a target past a run of its octets and the one behind them, and outside of targets as far as one opens.
ghost use Rattle.std.specs.Prelude.{◌≡◌, ◌+◌, ◌≤◌, ◌<◌, ◌^◌, length};
ghost use Rattle.octets.specs.Editions.{further};
ghost use Rattle.phases.specs.Spots.{Normal, spot};
ghost use Rattle.part_scan.specs.Moved.{Moved, judged_to};

use crate::outside::{Step, outside};
use cursor::Cursor;
use kinds::Place;
use octets::editions::Edition;
use phases::spot::{Spot, UNFIT, flat, is_open, onward};
use reference_scan::{past_blocks, run_over};

// The spot at the text's end, the place of an octet that leads nowhere, the start of a target that is no reference, or the spot and the
// cursor behind an octet.
// A `Result` would be no plainer: three of the four end the scan, one of them well, and whoever calls takes all four apart.
#[derive(Clone, Copy)]
pub enum Move {
    End(Spot),
    Halt(Place),
    Unfit(Place),
    To(Spot, Cursor),
}

// Past the octet that stands here.
fn behind(edition: Edition, s: &[u8], base: usize, spot: Spot, c: Cursor) -> Move
    requires { (c.at.0 ≤ length s.now) × (base + length s.now < 2 ^ 64) }
    ensures { Moved (further edition) s.now base spot c.at.0 result }
{
    let at = c.at;
    let i = at.0;
    if i >= s.len() {
        return Move::End(spot);
    }
    let after = base + i + 1;
    let next = onward(edition, spot, Place(after), s[i]);
    if next.phase == phases::STUCK {
        return Move::Halt(at);
    }
    if next.phase == UNFIT {
        let start = next.target;
        return Move::Unfit(start);
    }
    Move::To(next, c.past_octet(s))
}

// The spot behind a target's octets from one cursor to another.
fn judged_to(s: &[u8], spot: Spot, from: Cursor, to: Cursor) -> Spot
    requires { (from.at.0 ≤ to.at.0) × (to.at.0 ≤ length s.now) }
    ensures { result ≡ judged_to s.now spot from.at.0 to.at.0 }
{
    let target = spot.target;
    let judged = run_over(s, from.span_to(to), spot.judged);
    Spot {
        phase: spot.phase,
        target,
        judged,
    }
}

// In a target: past its octets, and past the one behind them.
fn on_in_target(edition: Edition, s: &[u8], base: usize, spot: Spot, c: Cursor) -> Move
    requires { (c.at.0 ≤ length s.now) × (base + length s.now < 2 ^ 64) × (spot.phase ≡ 1) }
    ensures { Moved (further edition) s.now base spot c.at.0 result }
{
    let d = past_blocks(s, c).past_target(s);
    behind(edition, s, base, judged_to(s, spot, c, d), d)
}

// In a target, or in a triple of one.
fn in_target(edition: Edition, s: &[u8], base: usize, spot: Spot, c: Cursor) -> Move
    requires { (c.at.0 ≤ length s.now) × (base + length s.now < 2 ^ 64) }
    ensures { Moved (further edition) s.now base spot c.at.0 result }
{
    if spot.phase == phases::TARGET {
        return on_in_target(edition, s, base, spot, c);
    }
    behind(edition, s, base, spot, c)
}

// Behind the `<` of a target, which is open there.
fn opened(at: usize) -> Spot
    ensures { result ≡ spot 1 at 0 }
{
    Spot {
        phase: phases::TARGET,
        target: Place(at),
        judged: 0,
    }
}

// In a target past some octets of it, and outside of targets as far as one opens.
pub fn go_on(edition: Edition, s: &[u8], base: usize, spot: Spot, c: Cursor) -> Move
    requires { (c.at.0 ≤ length s.now) × (base + length s.now < 2 ^ 64) × Normal spot }
    ensures { Moved (further edition) s.now base spot c.at.0 result }
{
    if is_open(spot.phase) {
        return in_target(edition, s, base, spot, c);
    }
    match outside(edition, s, spot.phase, c) {
        Step::End(phase) => Move::End(flat(phase)),
        Step::Halt(at) => Move::Halt(at),
        Step::Open(d) => Move::To(opened(base + d.at.0), d),
        Step::To(phase, d) => Move::To(flat(phase), d),
    }
}
