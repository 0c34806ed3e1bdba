// A part of a text read without its backslashes, in place. No reference holds a backslash, so where a part means a reference every
// backslash of it is one that comes out. Loops branch at a backslash, as those of `values` do.
#![tactic(auto)]

ghost use Rattle.std.specs.Prelude.{◌≡◌, ◌+◌, ◌≤◌, length};
ghost use Rattle.kinds.specs.Put.{Put};
ghost use Rattle.tables.specs.Good.{InText};
ghost use Rattle.bare.specs.Bare.{bare_of, Past};

use kinds::{OutPlace, Place, Span};

// Where the first octet other than a backslash stands, or `to`.
pub fn past(s: &[u8], from: Place, to: Place) -> Place
    requires { InText s.now from.0 to.0 }
    ensures { Past s.now from.0 to.0 result.0 }
{
    for i in from.0..to.0 {
        if s[i] != b'\\' {
            return Place(i);
        }
    }
    to
}

// How many octets the part has without its backslashes.
pub fn bare_len(s: &[u8], part: Span) -> usize
    requires { InText s.now part.from.0 part.to.0 }
    ensures { result ≡ length (bare_of s.now part.from.0 part.to.0) }
{
    let mut n = 0;
    for at in part.from.0..part.to.0 {
        if s[at] == b'\\' {
            continue;
        }
        n += 1;
    }
    n
}

// Writes the part without its backslashes into out from place `at` on, and answers the place behind it.
pub fn put_bare(s: &[u8], part: Span, out: &mut [u8], at: OutPlace) -> OutPlace
    requires { InText s.now part.from.0 part.to.0
        × (at.0 + length (bare_of s.now part.from.0 part.to.0) ≤ length out.old) }
    ensures { Put out.old out.new at.0 result.0 (bare_of s.now part.from.0 part.to.0) }
{
    let mut to = at;
    for here in part.from.0..part.to.0 {
        if s[here] == b'\\' {
            continue;
        }
        let j = to.0;
        out[j] = s[here];
        to = to.next();
    }
    to
}
