// Whether a part of the text obeys the grammar, from its first octet to its last and no further.
#![tactic(auto)]

ghost use Rattle.std.specs.Prelude.{◌≤◌, ◌<◌, length};
ghost use Rattle.octets.specs.Editions.{further};
ghost use Rattle.grammar.specs.Grammar.{Token, Wider, Inside};
ghost use Rattle.tables.specs.Good.{InText};
ghost use Rattle.part_check.specs.Decides.{Decides};
ghost use Rattle.part_check.specs.Pairs.{PairAt};

use cursor::Cursor;
use kinds::{Place, Span};
use octet_classes::{Set, is_in};
use octets::editions::Edition;

// Whether the part lies in the text.
pub fn is_span(s: &[u8], part: Span) -> bool
    ensures { Decides result (InText s.now part.from.0 part.to.0) }
{
    (part.from.0 <= part.to.0) & (part.to.0 <= s.len())
}

// Whether the part is a token.
pub fn is_token_part(s: &[u8], part: Span) -> bool
    requires { InText s.now part.from.0 part.to.0 }
    ensures { Decides result (Token s.now part.from.0 part.to.0) }
{
    let from = part.from;
    let e = part.to.0;
    let c = Cursor { at: from }.past_token(&s[..e]);
    (from.0 < e) & (c.at.0 == e)
}

// Whether the part is what the edition allows without quotes though it is no token.
pub fn is_wider_part(edition: Edition, s: &[u8], part: Span) -> bool
    requires { InText s.now part.from.0 part.to.0 }
    ensures { Decides result (Wider (further edition) s.now part.from.0 part.to.0) }
{
    let from = part.from;
    let e = part.to.0;
    let k = Cursor { at: from }.past_token(&s[..e]);
    let c = k.past_further(&s[..e], edition);
    (k.at.0 < e) & (c.at.0 == e)
}

// Whether a pair of a backslash and an octet that it may stand before begins at `at` and ends before `to`, or there.
fn is_pair(s: &[u8], at: Place, to: Place) -> bool
    requires { (at.0 < to.0) × (to.0 ≤ length s.now) }
    ensures { Decides result (PairAt s.now at.0 to.0) }
{
    let i = at.0;
    if s[i] != b'\\' {
        return false;
    }
    if to.0 - i < 2 {
        return false;
    }
    is_in(Set::Escapable, s[i + 1])
}

// Whether the part is the inside of a quoted string: runs of plain octets, and a pair behind each but the last.
pub fn is_inside(s: &[u8], part: Span) -> bool
    requires { InText s.now part.from.0 part.to.0 }
    ensures { Decides result (Inside s.now part.from.0 part.to.0) }
{
    let from = part.from;
    let to = part.to;
    let e = to.0;
    let mut c = Cursor { at: from }.past_plain(&s[..e]);
    // Each turn passes a pair and a run of any length, so a for loop doesn't fit.
    while c.at.0 < e {
        let at = c.at;
        if !is_pair(s, at, to) {
            return false;
        }
        c = c.past_octet(s).past_octet(s).past_plain(&s[..e]);
    }
    true
}
