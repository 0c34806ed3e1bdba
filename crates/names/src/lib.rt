// Known names: the code of each, and a record of which of those kept once have been seen.
#![tactic(auto)]

ghost use Rattle.std.specs.Prelude.{cond, ◌≡◌};
ghost use Rattle.std.proofs.Math.Seq.{slice};
ghost use Rattle.octets.specs.Fold.{folded, same_folded};
ghost use Rattle.grammar.specs.Kept.{code_of};
ghost use Rattle.tables.specs.Good.{InText};
ghost use Rattle.names.specs.Remembers.{none_seen, has_code, with_code};

use folding::compare;
use kinds::Span;

// The codes of the names that are asked for: `rel`, `anchor`, `title` and `title*`.
pub const REL: usize = 1;

pub const ANCHOR: usize = 2;

pub const TITLE: usize = 4;

pub const TITLE_STAR: usize = 5;

// The bits of the codes of names kept once, 1 to 6.
const ONCE: u32 = 126;

// Which of the names kept once stood earlier in a link: the bit of a name's code is set.
#[derive(Clone, Copy)]
pub struct Seen {
    marks: u32,
}

impl Seen {
    pub fn none() -> Seen
        ensures { result ≡ none_seen }
    {
        Seen { marks: 0 }
    }

    // Whether the name of this code is kept once and has been seen.
    pub fn has(self, code: usize) -> bool
        ensures { result ≡ has_code self code }
    {
        (self.marks >> (code % 32)) % 2 == 1
    }

    // What has been seen behind one more name, of this code.
    pub fn with(self, code: usize) -> Seen
        ensures { result ≡ with_code self code }
    {
        Seen {
            marks: self.marks | ((1 << (code % 32)) & ONCE),
        }
    }
}

// The code k if n is the name m, and else 0.
fn only(n: &[u8], m: &[u8], k: usize) -> usize
    ensures { result ≡ cond (same_folded n.now m.now) k 0 }
{
    if compare(n, m).same { k } else { 0 }
}

// The code of the name n, written in any case, or 0 if it is not known. Its length and one of its first octets leave one known name at
// most, and no other is compared.
fn known(n: &[u8]) -> usize
    ensures { result ≡ code_of (folded n.now) }
{
    match n.len() {
        3 => if n[2] | 32 == b'l' {
            only(n, b"rel", REL)
        } else {
            only(n, b"rev", 8)
        },
        4 => only(n, b"type", 6),
        5 => if n[0] | 32 == b'm' {
            only(n, b"media", 3)
        } else {
            only(n, b"title", 4)
        },
        6 => if n[0] | 32 == b'a' {
            only(n, b"anchor", ANCHOR)
        } else {
            only(n, b"title*", 5)
        },
        8 => only(n, b"hreflang", 7),
        _ => 0,
    }
}

// The code of the name that stands there.
pub fn code(s: &[u8], name: Span) -> usize
    requires { InText s.now name.from.0 name.to.0 }
    ensures { result ≡ code_of (folded (slice name.from.0 name.to.0 s.now)) }
{
    let from = name.from.0;
    let to = name.to.0;
    known(&s[from..to])
}

// The code of a name by itself: the span of all of it is asked, so that one compiled function serves all callers.
pub fn code_of(n: &[u8]) -> usize
    ensures { result ≡ code_of (folded n.now) }
{
    code(n, Span::up_to(n.len()))
}
