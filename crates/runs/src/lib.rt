// The runs parted by SP in what a part of a text means, one after another. Loops branch at a backslash, as those of `values` do.
#![tactic(auto)]

ghost use Rattle.std.specs.Prelude.{◌≡◌, not, ◌≤◌, ◌<◌, length};
ghost use Rattle.tables.specs.Good.{InText};
ghost use Rattle.tables.specs.Relation.{runs};
ghost use Rattle.values.specs.Rest.{rest};
ghost use Rattle.runs.specs.Runs.{is_none, AtRun, Skipped, NextRun, MatchRun, agrees_at};

use folding::same_octet;
use kinds::{Place, Span};

// Where the SPs end that are meant from place `from` on, or, where `spaces` is false, the octets other than SP.
// `spaces` is a flag and no closure: `Skipped` and the lemmas on it tell of the flag, so a closure would be no plainer.
fn skip(s: &[u8], from: Place, e: Place, spaces: bool) -> Place
    requires { InText s.now from.0 e.0 }
    ensures { Skipped spaces s.now e.0 from.0 result.0 }
{
    let mut k = from;
    // Steps by one octet or two, so a for loop doesn't fit.
    while k.0 < e.0 {
        let here = k.0;
        let mut p = k;
        if s[here] == b'\\' {
            p = k.next();
            if p.0 >= e.0 {
                return e;
            }
        }
        let at = p.0;
        if (s[at] == b' ') != spaces {
            return k;
        }
        k = p.next();
    }
    k
}

// Where the next run begins, or e.
pub fn next_run(s: &[u8], from: Place, e: Place) -> Place
    requires { InText s.now from.0 e.0 }
    ensures { NextRun s.now e.0 from.0 result.0 }
{
    skip(s, from, e, true)
}

// Whether octet number i of q is there and compares equal to c.
fn agrees(q: &[u8], i: usize, c: u8) -> bool
    ensures { result ≡ agrees_at q.now i c }
{
    i < q.len() && same_octet(c, q[i])
}

// What comparing a run found: whether it is the same, folded, and the place behind it. The place is told either way, so an Option of it would
// say less.
#[derive(Clone, Copy)]
pub struct RunMatch {
    pub same: bool,
    pub next: Place,
}

// Compares the run that begins at `from` with q. The first octet that differs decides.
pub fn match_run(s: &[u8], from: Place, e: Place, q: &[u8]) -> RunMatch
    requires { (from.0 < e.0) × (e.0 ≤ length s.now) × AtRun (rest s.now e.0 from.0) }
    ensures { MatchRun s.now e.0 from.0 q.now result }
{
    let mut i = 0;
    let mut k = from;
    // Steps by one octet or two, so a for loop doesn't fit.
    while k.0 < e.0 {
        let h = k.0;
        let mut p = k;
        if s[h] == b'\\' {
            p = k.next();
            if p.0 >= e.0 {
                return RunMatch {
                    same: i == q.len(),
                    next: e,
                };
            }
        }
        let j = p.0;
        let c = s[j];
        if c == b' ' {
            return RunMatch {
                same: i == q.len(),
                next: k,
            };
        }
        let after = p.next();
        if !agrees(q, i, c) {
            return RunMatch {
                same: false,
                next: skip(s, after, e, false),
            };
        }
        i += 1;
        k = after;
    }
    RunMatch {
        same: i == q.len(),
        next: k,
    }
}

// Whether the part means any run at all.
pub fn has_runs(s: &[u8], part: Span) -> bool
    requires { InText s.now part.from.0 part.to.0 }
    ensures { result ≡ not (is_none (runs (rest s.now part.to.0 part.from.0))) }
{
    next_run(s, part.from, part.to).0 < part.to.0
}
