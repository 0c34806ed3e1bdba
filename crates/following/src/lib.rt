// The link of a table that a step follows: the first that has a relation and no `anchor`.
#![tactic(auto)]

ghost use Rattle.std.specs.Prelude.{◌≡◌, ◌<◌};
ghost use Rattle.octets.specs.declared.editions.Edition.TheVariants.{Rfc5988};
ghost use Rattle.tables.specs.Table.{link_at};
ghost use Rattle.tables.specs.Good.{InText};
ghost use Rattle.tables.specs.Relation.{any_folded, runs};
ghost use Rattle.values.specs.Rest.{rest};
ghost use Rattle.outcomes.specs.Usable.{Usable};
ghost use Rattle.catalogues.specs.Steps.{follows};
ghost use Rattle.following.specs.Followed.{IsFollowed};
ghost use Rattle.lent.specs.Lent.{lent};

use kinds::{LinkNumber, Span};
use lent::Table;
use runs::{match_run, next_run};

// Whether a run of what the part means compares equal to the relation.
fn has_run(text: &[u8], part: Span, relation: &[u8]) -> bool
    requires { InText text.now part.from.0 part.to.0 }
    ensures { result ≡ any_folded relation.now (runs (rest text.now part.to.0 part.from.0)) }
{
    let e = part.to;
    let mut k = next_run(text, part.from, e);
    // Each turn passes a run of any length, so a for loop doesn't fit.
    while k.0 < e.0 {
        let m = match_run(text, k, e, relation);
        if m.same {
            return true;
        }
        k = next_run(text, m.next, e);
    }
    false
}

// Whether a link has the relation and no `anchor`.
fn is_followed(t: &Table, link: LinkNumber, relation: &[u8]) -> bool
    requires usable { Usable Rfc5988 (lent t.now) }
    requires link_lt_links { link.0 < t.now.counts.links }
    ensures { result ≡ follows t.now.text.now relation.now (link_at t.now.links.now t.now.params.now link.0) }
{
    let l = records::link_at(t.links, link);
    let anchor = named::first_of(t.params, l, names::ANCHOR);
    match anchor {
        Some(_) => false,
        None => {
            let rel = named::first_of(t.params, l, names::REL);
            match rel {
                None => false,
                Some(p) => has_run(t.text, p.value, relation),
            }
        }
    }
}

// Where the target of the first link that is followed stands, or none if no link is followed. The older edition stands for all: what is good in any of them is good in it.
pub fn first_followed(t: &Table, relation: &[u8]) -> Option<Span>
    requires { Usable Rfc5988 (lent t.now) }
    ensures { IsFollowed (lent t.now)
        relation.now result }
{
    let first = LinkNumber::first();
    for i in 0..t.counts.links {
        let link = first.plus(i);
        if is_followed(t, link, relation) {
            return Some(records::link_at(t.links, link).target);
        }
    }
    None
}
