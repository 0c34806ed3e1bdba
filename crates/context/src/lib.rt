// A link's context: its `anchor` value as written, else the whole base. Both entries refuse an edition that there isn't, a text that
// is too long, a table that is not good, and a link that isn't there.
#![tactic(auto)]

ghost use Rattle.std.specs.Prelude.{◌<◌, length};
ghost use Rattle.octets.specs.declared.editions.Edition.TheVariants.{Rfc5988};
ghost use Rattle.outcomes.specs.Usable.{Usable};
ghost use Rattle.outcomes.specs.Context.{Context as ContextOutcome};
ghost use Rattle.answers.specs.Context.{context_out};
ghost use Rattle.context.specs.Part.{IsAnchor, IsContext, HandsBack};
ghost use Rattle.lent.specs.Lent.{lent};

use answers::Refusal;
use answers::context_answer::{Context, ContextAnswer};
use kinds::LinkNumber;
use lent::Table;
use table_check::state_of;

// Where the context of a link lies that is there. The older edition stands for all: what is good in any of them is good in it.
fn anchor_of(t: &Table, link: LinkNumber) -> Context
    requires usable { Usable Rfc5988 (lent t.now) }
    requires link_lt_links { link.0 < t.now.counts.links }
    ensures { IsAnchor (lent t.now)
        link.0 result }
{
    let l = records::link_at(t.links, link);
    let anchor = named::first_of(t.params, l, names::ANCHOR);
    match anchor {
        Some(param) => Context::Anchored(param.value),
        None => Context::Base,
    }
}

// Where a link's context lies, or why it is refused.
fn context_of(edition: usize, t: &Table, link: LinkNumber) -> ContextAnswer
    ensures { IsContext edition
        (lent t.now)
        link.0 result }
{
    state_of(edition, t)?;
    if link.0 >= t.counts.links {
        return Err(Refusal::NoSuchLink);
    }
    Ok(anchor_of(t, link))
}

// The context itself: a part of the text, or of the base. Refused, it is the base's first zero octets.
pub fn context<'a>(edition: usize, t: &Table<'a, '_>, base: &'a [u8], link: LinkNumber) -> &'a [u8]
    ensures { HandsBack edition (lent t.now) link.0 t.now.text base.entry result }
{
    let answer = context_of(edition, t, link);
    match answer {
        Ok(Context::Anchored(span)) => &t.text[span.from.0..span.to.0],
        Ok(Context::Base) => base,
        Err(_) => &base[..0],
    }
}

// The number of the context, and where it lies, on the same inputs.
pub fn context_number(edition: usize, t: &Table, base: &[u8], link: LinkNumber) -> ContextAnswer
    ensures { ContextOutcome edition (lent t.now) base.now link.0
        (context_out (length base.now) result) }
{
    context_of(edition, t, link)
}
