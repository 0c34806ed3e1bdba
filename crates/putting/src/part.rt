// Parts of a text put into a buffer, as they stand or folded.
ghost use Rattle.std.specs.Prelude.{◌≡◌, ◌+◌, ◌≤◌, map, length};
ghost use Rattle.std.proofs.Math.Seq.{slice};
ghost use Rattle.kinds.specs.Put.{Put};
ghost use Rattle.octets.specs.Fold.{folded};
ghost use Rattle.tables.specs.Good.{InText};
ghost use Rattle.putting.specs.Spelt.{spelt};

use folding::fold;
use kinds::{OutPlace, Span};

// An octet, folded or as it stands.
fn spelt<const FOLDING: bool>(c: u8) -> u8
    ensures { result ≡ spelt FOLDING c }
{
    if FOLDING { fold(c) } else { c }
}

// The part, folded or as it stands: the loop is compiled once for each value of FOLDING, and holds no test of it.
fn put_spelt<const FOLDING: bool>(s: &[u8], part: Span, out: &mut [u8], at: OutPlace) -> OutPlace
    requires in_text { InText s.now part.from.0 part.to.0 }
    requires s_in_bounds { at.0 + length (slice part.from.0 part.to.0 s.now) ≤ length out.old }
    ensures { Put out.old out.new at.0 result.0
        (map (spelt FOLDING) (slice part.from.0 part.to.0 s.now)) }
{
    // `copy_from_slice` would call the C library's memcpy, and the library calls nothing for it.
    let mut to = at;
    for i in part.from.0..part.to.0 {
        let j = to.0;
        out[j] = spelt::<FOLDING>(s[i]);
        to = to.next();
    }
    to
}

// The part as it stands.
pub fn put_part(s: &[u8], part: Span, out: &mut [u8], at: OutPlace) -> OutPlace
    requires in_text { InText s.now part.from.0 part.to.0 }
    requires s_in_bounds { at.0 + length (slice part.from.0 part.to.0 s.now) ≤ length out.old }
    ensures { Put out.old out.new at.0 result.0 (slice part.from.0 part.to.0 s.now) }
{
    put_spelt::<false>(s, part, out, at)
}

// The part, folded.
pub fn put_folded(s: &[u8], part: Span, out: &mut [u8], at: OutPlace) -> OutPlace
    requires in_text { InText s.now part.from.0 part.to.0 }
    requires s_in_bounds { at.0 + length (folded (slice part.from.0 part.to.0 s.now)) ≤ length out.old }
    ensures { Put out.old out.new at.0 result.0
        (folded (slice part.from.0 part.to.0 s.now)) }
{
    put_spelt::<true>(s, part, out, at)
}
