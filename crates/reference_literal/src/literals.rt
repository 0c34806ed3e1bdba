// Where an IP literal begins, IPvFuture, and where a URI begins.
ghost use Rattle.std.specs.Prelude.{◌≡◌, ◌≤◌, ◌<◌};
ghost use Rattle.reference_steps.specs.Machine.{step};

use crate::groups::more_digits;
use octet_classes::{Set, is_in};
use reference_sets::picking::{NOWHERE, pick};
use reference_sets::sets::{is_alpha, is_plain, is_scheme};

fn behind_bracket(c: u8) -> usize
    ensures { result ≡ step 48 c }
{
    let group = pick(is_in(Set::Hex, c), more_digits(0, 0, 0, 0, c), NOWHERE);
    pick(c == b':', 49, pick((c == b'v') | (c == b'V'), 50, group))
}

fn in_version(c: u8) -> usize
    ensures { result ≡ step 51 c }
{
    pick(is_in(Set::Hex, c), 51, pick(c == b'.', 52, NOWHERE))
}

fn in_future(c: u8) -> usize
    ensures { result ≡ step 53 c }
{
    pick(is_plain(c) | (c == b':'), 53, pick(c == b']', 12, NOWHERE))
}

fn in_uri_scheme(c: u8) -> usize
    ensures { result ≡ step 56 c }
{
    pick(is_scheme(c), 56, pick(c == b':', 3, NOWHERE))
}

fn in_bracket(q: usize, c: u8) -> usize
    requires { (48 ≤ q) × (q < 54) }
    ensures { result ≡ step q c }
{
    match q {
        48 => behind_bracket(c),
        49 => pick(c == b':', 341, NOWHERE),
        50 => pick(is_in(Set::Hex, c), 51, NOWHERE),
        51 => in_version(c),
        52 => pick(is_plain(c) | (c == b':'), 53, NOWHERE),
        _ => in_future(c),
    }
}

pub fn in_literal(q: usize, c: u8) -> usize
    requires { (48 ≤ q) × (q < 60) }
    ensures { result ≡ step q c }
{
    if q < 54 {
        return in_bracket(q, c);
    }
    if q == 55 {
        return pick(is_alpha(c), 56, NOWHERE);
    }
    if q == 56 {
        return in_uri_scheme(c);
    }
    NOWHERE
}
