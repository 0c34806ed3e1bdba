// Dot segments removed from a path's right end: how long the result is, and the result itself, written where it ends. A path in two texts
// is gone through by two calls, the state handed from one to the next.
#![tactic(auto)]

ghost use Rattle.std.specs.Prelude.{◌≡◌, ◌+◌, ◌-◌, ◌*◌, ◌^◌, ◌≤◌, ◌<◌, [], ◌∷◌, length};
ghost use Rattle.std.proofs.lemmas.List.Edits.{sets};
ghost use Rattle.tables.specs.Good.{InText};
ghost use Rattle.resolution.specs.Walking.{step, slash_gain, pending_on, held, run, text};
ghost use Rattle.bare.specs.Bare.{bare, bare_of};
ghost use Rattle.dot_walk.specs.Put.{gained, Written};

use kinds::{OutPlace, Span};
use resolution::Walk;

// How many octets a slash adds.
fn slash_gain(t: Walk) -> usize
    ensures { result ≡ length (slash_gain t) }
{
    let dotted = (t.kind == 1) | (t.kind == 2);
    let adds = (dotted & (t.kept == 0)) | (!dotted & (t.pending == 0));
    adds as usize
}

// How many `..` wait behind a slash.
fn pending_on(t: Walk) -> usize
    requires { t.pending + 1 < 2 ^ 64 }
    ensures { result ≡ pending_on t }
{
    let pending = t.pending;
    let kind = t.kind;
    if kind == 2 {
        return pending + 1;
    }
    if kind == 1 {
        return pending;
    }
    if pending == 0 {
        return 0;
    }
    pending - 1
}

// How many dots are held back.
fn held_len(kind: usize) -> usize
    ensures { result ≡ length (held kind) }
{
    if (kind == 1) | (kind == 2) { kind } else { 0 }
}

// Left of an octet.
fn step(t: Walk, c: u8) -> Walk
    requires { (t.pending + 1 < 2 ^ 64) × (t.kept + 3 < 2 ^ 64) }
    ensures { result ≡ step t c }
{
    let pending = t.pending;
    let kind = t.kind;
    let kept = t.kept;
    if c == b'/' {
        return Walk {
            pending: pending_on(t),
            kind: 0,
            kept: kept + slash_gain(t),
        };
    }
    if (c == b'.') & (kind < 2) {
        return Walk {
            pending,
            kind: kind + 1,
            kept,
        };
    }
    if pending != 0 {
        return Walk {
            pending,
            kind: 3,
            kept,
        };
    }
    Walk {
        pending,
        kind: 3,
        kept: kept + 1 + held_len(kind),
    }
}

// Left of an octet of a text that is read without its backslashes.
fn passed(t: Walk, c: u8) -> Walk
    requires { (t.pending + 1 < 2 ^ 64) × (t.kept + 3 < 2 ^ 64) }
    ensures { result ≡ run (bare (c ∷ [])) t }
{
    if c == b'\\' { t } else { step(t, c) }
}

// Left of a part of a text.
pub fn walk(s: &[u8], part: Span, begun: Walk) -> Walk
    requires in_text { InText s.now part.from.0 part.to.0 × (length s.now ≤ 8192) }
    requires kept_bound { (begun.kept ≤ 24576) × (begun.pending ≤ 8192) }
    ensures { result ≡ run (bare_of s.now part.from.0 part.to.0) begun }
{
    let mut t = begun;
    for i in (part.from.0..part.to.0).rev() {
        t = passed(t, s[i]);
    }
    t
}

// Writes what an octet adds, n octets, before the place `at`.
fn put_before(out: &mut [u8], at: usize, n: usize, c: u8)
    requires { (n ≤ 3) × (n ≤ at) × (at ≤ length out.old) }
    ensures { out.new ≡ sets out.old (at - n) (gained n c) }
{
    if n == 0 {
        return;
    }
    out[at - n] = c;
    if n == 1 {
        return;
    }
    out[at - n + 1] = b'.';
    if n == 3 {
        out[at - 1] = b'.';
    }
}

// Left of a part of a text, and what it adds written before what is kept already, which ends at `end`.
pub fn write(s: &[u8], part: Span, begun: Walk, out: &mut [u8], end: OutPlace) -> Walk
    requires in_text { InText s.now part.from.0 part.to.0 × (length s.now ≤ 8192) }
    requires kept_bound { (begun.kept ≤ 24576) × (begun.pending ≤ 8192) }
    requires begun_bound { (begun.kept + length (text (bare_of s.now part.from.0 part.to.0) begun) ≤ end.0)
        × (end.0 ≤ length out.old) }
    ensures { Written out.old out.new end.0
        (bare_of s.now part.from.0 part.to.0) begun result }
{
    let right = end.0;
    let mut t = begun;
    for i in (part.from.0..part.to.0).rev() {
        let c = s[i];
        let n = passed(t, c);
        put_before(out, right - t.kept, n.kept - t.kept, c);
        t = n;
    }
    t
}
