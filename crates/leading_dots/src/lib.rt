// The dot segments that a path begins with, if it doesn't begin with a slash: they go first, from the left.
#![tactic(auto)]

ghost use Rattle.std.specs.Prelude.{◌≤◌, length};
ghost use Rattle.tables.specs.Good.{InText};
ghost use Rattle.leading_dots.specs.Leads.{Behind, Leads, Trims};

use bare::past;
use kinds::{Place, Span};

// The place behind the octet c, if the part begins with it, else where the part begins.
fn behind(s: &[u8], k: Place, to: Place, c: u8) -> Place
    requires { InText s.now k.0 to.0 }
    ensures { Behind s.now k.0 to.0 c result.0 }
{
    let p = past(s, k, to);
    if p.0 >= to.0 {
        return k;
    }
    let i = p.0;
    if s[i] != c {
        return k;
    }
    p.next()
}

// The place behind a `.` or `..` that the part begins with, and the slash behind that if there is one.
fn behind_dots(s: &[u8], k: Place, to: Place) -> Place
    requires { InText s.now k.0 to.0 }
    ensures { Leads s.now k.0 to.0 result.0 }
{
    let first = behind(s, k, to, b'.');
    if first.0 == k.0 {
        return k;
    }
    let second = behind(s, first, to, b'.');
    let p = past(s, second, to);
    if p.0 >= to.0 {
        return to;
    }
    let i = p.0;
    if s[i] != b'/' {
        return k;
    }
    p.next()
}

// The place behind all of them.
pub fn trim(s: &[u8], part: Span) -> Place
    requires { InText s.now part.from.0 part.to.0 }
    ensures { Trims s.now part.from.0 part.to.0 result.0 }
{
    let to = part.to;
    let mut k = part.from;
    // Each turn passes a segment of any length, so a for loop doesn't fit.
    loop {
        let n = behind_dots(s, k, to);
        if n.0 == k.0 {
            return k;
        }
        k = n;
    }
}
