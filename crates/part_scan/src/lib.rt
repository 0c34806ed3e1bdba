// A part of a header, judged from the spot on at which the part before it ended.
#![tactic(auto)]

ghost use Rattle.std.specs.Prelude.{◌+◌, ◌<◌, ◌^◌, length};
ghost use Rattle.octets.specs.Editions.{further};
ghost use Rattle.phases.specs.Spots.{normal};
ghost use Rattle.part_scan.specs.Moved.{PartScanned};

use crate::go_on::{Move, go_on};
use cursor::Cursor;
use kinds::Place;
use octets::editions::Edition;
use phases::spot::{Spot, normal};

mod go_on;
mod outside;

// The spot behind the part, the place in it of the first octet that leads nowhere, or the start of a target that is closed in it and is
// no reference: its place in the header, which may lie before the part.
// A `Result` with an enum of the two faults would be no plainer: nothing passes a fault on by `?`, and whoever calls takes the three apart.
#[derive(Clone, Copy)]
pub enum PartScan {
    Through(Spot),
    Stuck(Place),
    Unfit(Place),
}

// A part before which `base` octets of the header stand.
pub fn scan_part(edition: Edition, part: &[u8], base: usize, from: Spot) -> PartScan
    requires { base + length part.now < 2 ^ 64 }
    ensures { PartScanned (further edition) part.now base (normal from) result }
{
    let mut spot = normal(from);
    let mut c = Cursor::start();
    loop {
        match go_on(edition, part, base, spot, c) {
            Move::End(last) => {
                return PartScan::Through(last);
            }
            Move::Halt(at) => {
                return PartScan::Stuck(at);
            }
            Move::Unfit(start) => {
                return PartScan::Unfit(start);
            }
            Move::To(next, d) => {
                spot = next;
                c = d;
            }
        }
    }
}
