// Whole texts judged: whether a part of a text means a reference, its backslashes taken out, and whether a text is a URI. Nothing is
// copied to judge it.
#![tactic(auto)]

ghost use Rattle.std.specs.Prelude.{◌≡◌};
ghost use Rattle.tables.specs.Good.{InText};
ghost use Rattle.values.specs.Rest.{rest};
ghost use Rattle.reference_steps.specs.Machine.{run, accepts};

use cursor::Cursor;
use kinds::{Place, Span};
use reference_octet::{accepts, next};
use reference_scan::{judge, run_over};
use reference_sets::picking::NOWHERE;

// The state before a URI.
const URI: usize = 55;

// Whether what the part means is a reference. No state takes a backslash, so that judging stops at each, and goes on behind it with the
// octet that it stands for; one at the part's end stands for none.
pub fn is_meant_reference(s: &[u8], part: Span) -> bool
    requires { InText s.now part.from.0 part.to.0 }
    ensures { result ≡ accepts (run 0 (rest s.now part.to.0 part.from.0)) }
{
    let to = part.to.0;
    let mut i = part.from.0;
    let mut q = 0;
    // Each turn passes a run of any length and a pair, so a for loop doesn't fit.
    loop {
        let j = judge(&s[..to], Cursor { at: Place(i) }, q);
        let k = j.at.at.0;
        if k >= to {
            return accepts(j.state);
        }
        if s[k] != b'\\' {
            return false;
        }
        let p = k + 1;
        if p >= to {
            return accepts(j.state);
        }
        q = next(j.state, s[p]);
        if q == NOWHERE {
            return false;
        }
        i = p + 1;
    }
}

// Whether the text is a URI.
pub fn is_uri(s: &[u8]) -> bool
    ensures { result ≡ accepts (run 55 s.now) }
{
    accepts(run_over(s, Span::up_to(s.len()), URI))
}
