// Whether a table is good. Every number may be anything: none is used as a place or as a count before it is known to fit.
ghost use Rattle.std.specs.Prelude.{◌≤◌};
ghost use Rattle.octets.specs.Editions.{further};
ghost use Rattle.grammar.specs.Records.{link_room_of};
ghost use Rattle.tables.specs.Good.{Good};
ghost use Rattle.part_check.specs.Decides.{Decides};
ghost use Rattle.table_check.specs.Links.{GoodTarget, Linked, Fits, EachParams};
ghost use Rattle.lent.specs.Lent.{lent};

use kinds::{Counts, LinkNumber, ParamNumber, Span};
use lent::Table;
use octets::editions::Edition;
use param_check::are_good_params;
use part_check::is_span;
use records::{link_at, link_room, param_room};
use reference_scan::is_reference;

// Whether the span lies in the text, and is a reference, and so a target.
fn is_good_target(s: &[u8], target: Span) -> bool
    ensures { Decides result (GoodTarget s.now target.from.0 target.to.0) }
{
    is_span(s, target) && is_reference(s, target)
}

// Whether each link's parameters begin where the former's end, the last link's end at the parameter count, and each target is good. The
// parameters have a loop of their own: one loop over both kept too little in registers.
fn are_linked(text: &[u8], links: &[usize], counts: Counts) -> bool
    requires { counts.links ≤ link_room_of links.now }
    ensures { Decides result (Linked text.now links.now counts.links counts.params) }
{
    let first_link = LinkNumber::first();
    let mut next = ParamNumber::first();
    for i in 0..counts.links {
        let link = first_link.plus(i);
        let l = link_at(links, link);
        let left = counts.params - next.0;
        if l.first.0 != next.0 || l.count > left || !is_good_target(text, l.target) {
            return false;
        }
        next = next.plus(l.count);
    }
    next.0 == counts.params
}

// Whether the parameters of each link are good.
fn are_all_good(edition: Edition, t: &Table) -> bool
    requires { Fits t.now.links.now t.now.params.now t.now.counts.links t.now.counts.params }
    ensures { Decides result (EachParams (further edition) t.now.text.now t.now.links.now t.now.params.now t.now.counts.links) }
{
    let first = LinkNumber::first();
    for i in 0..t.counts.links {
        let link = first.plus(i);
        let l = link_at(t.links, link);
        if !are_good_params(edition, t.text, t.params, l.first, l.count) {
            return false;
        }
    }
    true
}

// Whether the counts fit the rooms, the links follow one another, and each link is good, with codes that agree with the names.
pub fn is_good(edition: Edition, t: &Table) -> bool
    ensures { Decides result
        (Good (further edition) (lent t.now)) }
{
    if t.counts.links > link_room(t.links) || t.counts.params > param_room(t.params) {
        return false;
    }
    if !are_linked(t.text, t.links, t.counts) {
        return false;
    }
    are_all_good(edition, t)
}
