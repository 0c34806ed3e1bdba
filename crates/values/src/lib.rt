// What a part of a text means: each backslash with the octet behind it is read as that octet. Nothing is copied to look at it, and
// each octet is looked at once. Loops branch at a backslash, so that no octet's place has to wait for the octet before it to be read.
#![tactic(auto)]

ghost use Rattle.std.specs.Prelude.{◌≡◌, ◌+◌, ◌≤◌, ◌<◌, length};
ghost use Rattle.kinds.specs.Put.{Put};
ghost use Rattle.tables.specs.Good.{InText};
ghost use Rattle.values.specs.Rest.{rest, Meant};

use kinds::{OutPlace, Place, Span};

// Where the octet meant at place k stands: behind a backslash it is one further on.
pub fn meant_at(s: &[u8], k: Place, e: Place) -> Place
    requires { (k.0 < e.0) × (e.0 ≤ length s.now) }
    ensures { Meant s.now e.0 k.0 result.0 }
{
    let at = k.0;
    if s[at] == b'\\' { k.next() } else { k }
}

// How many octets the part means.
pub fn meaning_len(s: &[u8], part: Span) -> usize
    requires { InText s.now part.from.0 part.to.0 }
    ensures { result ≡ length (rest s.now part.to.0 part.from.0) }
{
    let e = part.to;
    let mut n = 0;
    let mut k = part.from;
    // Steps by one octet or two, so a for loop doesn't fit.
    while k.0 < e.0 {
        let i = k.0;
        if s[i] == b'\\' {
            k = k.next();
            if k.0 >= e.0 {
                return n;
            }
        }
        n += 1;
        k = k.next();
    }
    n
}

// Writes what the part means into out from place `at` on, and answers the place behind it.
pub fn copy_meaning(s: &[u8], part: Span, out: &mut [u8], at: OutPlace) -> OutPlace
    requires { InText s.now part.from.0 part.to.0
        × (at.0 + length (rest s.now part.to.0 part.from.0) ≤ length out.old) }
    ensures { Put out.old out.new at.0 result.0 (rest s.now part.to.0 part.from.0) }
{
    let e = part.to;
    let mut to = at;
    let mut k = part.from;
    // Steps by one octet or two, so a for loop doesn't fit.
    while k.0 < e.0 {
        let here = k.0;
        let mut p = k;
        if s[here] == b'\\' {
            p = k.next();
            if p.0 >= e.0 {
                return to;
            }
        }
        let i = to.0;
        let j = p.0;
        out[i] = s[j];
        to = to.next();
        k = p.next();
    }
    to
}
