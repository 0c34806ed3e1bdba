// Octets put into a buffer at a moving place. Each function answers the place behind what it put.
#![tactic(auto)]

ghost use Rattle.std.specs.Prelude.{◌+◌, ◌≤◌, ◌<◌, [], ◌∷◌, length};
ghost use Rattle.kinds.specs.Put.{Put};

use kinds::OutPlace;

pub mod escaped;
pub mod part;

// One octet.
pub fn put(out: &mut [u8], at: OutPlace, c: u8) -> OutPlace
    requires { at.0 < length out.old }
    ensures { Put out.old out.new at.0 result.0 (c ∷ []) }
{
    let i = at.0;
    out[i] = c;
    at.next()
}

// Two octets.
pub fn put_two(out: &mut [u8], at: OutPlace, c: u8, d: u8) -> OutPlace
    requires { at.0 + 2 ≤ length out.old }
    ensures { Put out.old out.new at.0 result.0 (c ∷ d ∷ []) }
{
    let second = put(out, at, c);
    put(out, second, d)
}
