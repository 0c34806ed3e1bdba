// A link's resolved context: what its `anchor` means, resolved on the base; without one, the base without its fragment, which is what the
// empty reference gives. Nothing is copied to look at it.
#![tactic(auto)]

ghost use Rattle.std.specs.Prelude.{[], ◌∷◌, ◌≤◌, ◌<◌, length};
ghost use Rattle.octets.specs.declared.editions.Edition.TheVariants.{Rfc5988};
ghost use Rattle.tables.specs.Good.{InText};
ghost use Rattle.outcomes.specs.Usable.{Usable};
ghost use Rattle.outcomes.specs.ResolvedContext.{ContextOn, ResolvedContext};
ghost use Rattle.answers.specs.Length.{length_numbers, length_out};
ghost use Rattle.values.specs.Rest.{rest};
ghost use Rattle.references.proofs.Clear.{Free};
ghost use Rattle.resolved.specs.OnBase.{OnBase, RefusedLong};
ghost use Rattle.lent.specs.Lent.{lent};

use answers::length_answer::LengthAnswer;
use answers::{LIMIT, Refusal};
use judging::{is_meant_reference, is_uri};
use kinds::{LinkNumber, Span};
use lent::Table;
use octets::editions::edition_of;
use resolving::put_resolved;
use table_check::state_of;

// What the part means, resolved on a base that is right.
fn anchored(text: &[u8], base: &[u8], part: Span, out: &mut [u8]) -> LengthAnswer
    requires in_text { InText text.now part.from.0 part.to.0 × (length text.now ≤ 8192) }
    requires free { Free (92 ∷ []) base.now × (length base.now ≤ 8192) }
    ensures { OnBase base.now (rest text.now part.to.0 part.from.0) out.old
        (length_out (length_numbers result) out.new) }
{
    if !is_meant_reference(text, part) {
        return Err(Refusal::BadReference);
    }
    put_resolved(base, text, part, out)
}

// The context of a link. The older edition stands for all: what is good in any of them is good in it.
fn context_at(t: &Table, base: &[u8], link: LinkNumber, out: &mut [u8]) -> LengthAnswer
    requires usable { Usable Rfc5988 (lent t.now) }
    requires base_len_bound { length base.now ≤ 8192 }
    ensures { ContextOn (lent t.now)
        base.now link.0 out.old (length_out (length_numbers result) out.new) }
{
    if link.0 >= t.counts.links {
        return Err(Refusal::NoSuchLink);
    }
    if !is_uri(base) {
        return Err(Refusal::BadBase);
    }
    let l = records::link_at(t.links, link);
    let anchor = named::first_of(t.params, l, names::ANCHOR);
    match anchor {
        None => put_resolved(base, t.text, Span::up_to(0), out),
        Some(p) => anchored(t.text, base, p.value, out),
    }
}

// How a base over the limit is refused: the number of an edition that there isn't comes first.
fn refused_long(edition: usize) -> Refusal
    ensures { RefusedLong edition result }
{
    match edition_of(edition) {
        None => Refusal::UnknownEdition,
        Some(_) => Refusal::TooLong,
    }
}

// Writes the resolved context of a link, and answers how many octets that is.
pub fn resolved_context(
    edition: usize,
    t: &Table,
    base: &[u8],
    link: LinkNumber,
    out: &mut [u8],
) -> LengthAnswer
    ensures { ResolvedContext edition
        (lent t.now)
        base.now link.0 out.old (length_out (length_numbers result) out.new) }
{
    if base.len() > LIMIT {
        return Err(refused_long(edition));
    }
    state_of(edition, t)?;
    context_at(t, base, link, out)
}
