// The meaning of a value, put into a buffer as it stands in a quoted string.
ghost use Rattle.std.specs.Prelude.{◌+◌, ◌≤◌, [], length};
ghost use Rattle.kinds.specs.Put.{Put};
ghost use Rattle.tables.specs.Good.{InText};
ghost use Rattle.tables.specs.Written.{escape_octet, escape};
ghost use Rattle.values.specs.Rest.{rest};

use crate::{put, put_two};
use kinds::{OutPlace, Span};

// An octet, with a backslash where it needs one.
fn put_quoted(out: &mut [u8], at: OutPlace, c: u8) -> OutPlace
    requires { at.0 + length (escape_octet c []) ≤ length out.old }
    ensures { Put out.old out.new at.0 result.0 (escape_octet c []) }
{
    if (c == b'"') | (c == b'\\') {
        return put_two(out, at, b'\\', c);
    }
    put(out, at, c)
}

// What the part means, with backslashes before `"` and `\` only. The loop branches at a backslash, as those of `values` do.
pub fn put_escaped(s: &[u8], part: Span, out: &mut [u8], at: OutPlace) -> OutPlace
    requires in_text { InText s.now part.from.0 part.to.0 }
    requires from_in_bounds { at.0 + length (escape (rest s.now part.to.0 part.from.0)) ≤ length out.old }
    ensures { Put out.old out.new at.0 result.0
        (escape (rest s.now part.to.0 part.from.0)) }
{
    let e = part.to;
    let mut to = at;
    let mut k = part.from;
    // Steps by one octet or two, so a for loop doesn't fit.
    while k.0 < e.0 {
        let here = k.0;
        let mut p = k;
        if s[here] == b'\\' {
            p = k.next();
            if p.0 >= e.0 {
                return to;
            }
        }
        let i = p.0;
        to = put_quoted(out, to, s[i]);
        k = p.next();
    }
    to
}
