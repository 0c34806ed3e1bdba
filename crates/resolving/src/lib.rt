// Resolving a reference on a base. Both are judged, the result is measured, and then it is written once; a path may be longer on the way
// than the result, and that asks for no room.
#![tactic(auto)]

ghost use Rattle.std.specs.Prelude.{[], ◌∷◌, ◌≤◌, length};
ghost use Rattle.tables.specs.Good.{InText};
ghost use Rattle.resolution.specs.Resolve.{resolved};
ghost use Rattle.outcomes.specs.Resolve.{Fitted, Resolve};
ghost use Rattle.answers.specs.Length.{length_numbers, length_out};
ghost use Rattle.references.proofs.Clear.{Free};
ghost use Rattle.bare.specs.Bare.{bare_of};

use answers::length_answer::LengthAnswer;
use answers::{LIMIT, Refusal};
use judging::is_uri;
use kinds::Span;
use reference_scan::is_reference;
use routes::{measure, put_result};
use routing::route;

// Writes the result for the part's octets without their backslashes, if it is within the limit and there is room.
pub fn put_resolved(base: &[u8], s: &[u8], part: Span, out: &mut [u8]) -> LengthAnswer
    requires in_text { InText s.now part.from.0 part.to.0 × (length s.now ≤ 8192) }
    requires free { Free (92 ∷ []) base.now × (length base.now ≤ 8192) }
    ensures { Fitted out.old (resolved base.now (bare_of s.now part.from.0 part.to.0))
        (length_out (length_numbers result) out.new) }
{
    let r = route(base, s, part);
    let n = measure(base, s, r);
    let whole = n.whole;
    if whole > LIMIT {
        return Err(Refusal::TooLong);
    }
    if whole > out.len() {
        return Err(Refusal::NoOutputRoom);
    }
    put_result(base, s, r, n, out);
    Ok(whole)
}

// Writes what the reference gives on the base, and answers how many octets that is.
pub fn resolve(reference: &[u8], base: &[u8], out: &mut [u8]) -> LengthAnswer
    ensures { Resolve reference.now base.now out.old (length_out (length_numbers result) out.new) }
{
    let end = reference.len();
    if end > LIMIT {
        return Err(Refusal::TooLong);
    }
    if base.len() > LIMIT {
        return Err(Refusal::TooLong);
    }
    let part = Span::up_to(end);
    let right_base = is_uri(base);
    let right = is_reference(reference, part);
    if !right_base {
        return Err(Refusal::BadBase);
    }
    if !right {
        return Err(Refusal::BadReference);
    }
    put_resolved(base, reference, part, out)
}
