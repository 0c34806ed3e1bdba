// Judging references: the machine of RFC 3986's references run over a text, fast.
#![tactic(auto)]

ghost use Rattle.std.specs.Prelude.{◌≡◌, ◌≤◌, length};
ghost use Rattle.std.proofs.Math.Seq.{slice};
ghost use Rattle.reference_steps.specs.Machine.{run, accepts};
ghost use Rattle.reference_sets.specs.Sets.{is_path};
ghost use Rattle.reference_scan.specs.Judges.{Judges};
ghost use Rattle.reference_scan.specs.Passed.{Passed};

use cursor::Cursor;
use kinds::{Place, Span};
use reference_octet::accepts;
use reference_sets::picking::NOWHERE;

mod blocks;
mod opening;
mod passing;
mod walking;

// The cursor behind what was judged, and the state there.
#[derive(Clone, Copy)]
pub struct Judged {
    pub at: Cursor,
    pub state: usize,
}

fn judged_up_to(i: usize, state: usize) -> Judged
    ensures { (result.at.at.0 ≡ i) × (result.state ≡ state) }
{
    let at = Cursor { at: Place(i) };
    Judged { at, state }
}

// On in the state `state`, past all octets that the machine takes, up to the first that leads nowhere or the text's end.
pub fn judge(s: &[u8], from: Cursor, state: usize) -> Judged
    requires { from.at.0 ≤ length s.now }
    ensures { Judges s.now from.at.0 state result }
{
    let i = from.at.0;
    let opened = opening::past_opening(s, i, state);
    let begun = opening::past_first_block(s, opened.at.at.0, opened.state);
    walking::walk(s, begun.at.at.0, begun.state)
}

// Past whole blocks of octets of which most references are made, wherever in one they stand.
pub fn past_blocks(s: &[u8], from: Cursor) -> Cursor
    requires { from.at.0 ≤ length s.now }
    ensures { Passed is_path s.now from.at.0 result.at.0 }
{
    let i = passing::past_blocks(s, from.at.0);
    Cursor { at: Place(i) }
}

// The state behind a part of the text.
pub fn run_over(s: &[u8], part: Span, state: usize) -> usize
    requires { (part.from.0 ≤ part.to.0) × (part.to.0 ≤ length s.now) }
    ensures { result ≡ run state (slice part.from.0 part.to.0 s.now) }
{
    let from = part.from;
    let to = part.to.0;
    let j = judge(&s[..to], Cursor { at: from }, state);
    if j.at.at.0 < to {
        return NOWHERE;
    }
    j.state
}

// Whether a part of the text is a reference.
pub fn is_reference(s: &[u8], part: Span) -> bool
    requires { (part.from.0 ≤ part.to.0) × (part.to.0 ≤ length s.now) }
    ensures { result ≡ accepts (run 0 (slice part.from.0 part.to.0 s.now)) }
{
    accepts(run_over(s, part, 0))
}
