// Links put into a buffer in their written form, one behind another.
#![tactic(auto)]

ghost use Rattle.std.specs.Prelude.{◌+◌, ◌≤◌, length};
ghost use Rattle.octets.specs.declared.editions.Edition.TheVariants.{Rfc5988};
ghost use Rattle.kinds.specs.Put.{Put};
ghost use Rattle.outcomes.specs.Usable.{Usable};
ghost use Rattle.outcomes.specs.Write.{written_form};
ghost use Rattle.records.specs.Slots.{to_link};
ghost use Rattle.tables.specs.Good.{InText};
ghost use Rattle.shape.specs.Forms.{link_form, parting, GoodRun};
ghost use Rattle.lent.specs.Lent.{lent};

use kinds::{LinkNumber, OutPlace};
use lent::Table;
use param_forms::put_params;
use putting::part::put_part;
use putting::{put, put_two};
use records::LinkRecord;

// What parts a link from the one before it.
fn put_parting(out: &mut [u8], at: OutPlace, first: bool) -> OutPlace
    requires { at.0 + length (parting first) ≤ length out.old }
    ensures { Put out.old out.new at.0 result.0 (parting first) }
{
    if first {
        return at;
    }
    put_two(out, at, b',', b' ')
}

// One link: `<`, target, `>` and its parameters.
fn put_link(text: &[u8], params: &[usize], l: LinkRecord, out: &mut [u8], at: OutPlace) -> OutPlace
    requires in_text { InText text.now l.target.from.0 l.target.to.0 }
    requires good_run { GoodRun text.now params.now l.first.0 (l.first.0 + l.count) }
    requires l_in_bounds { at.0 + length (link_form text.now (to_link params.now l)) ≤ length out.old }
    ensures { Put out.old out.new at.0 result.0
        (link_form text.now (to_link params.now l)) }
{
    let target = put(out, at, b'<');
    let close = put_part(text, l.target, out, target);
    let behind = put(out, close, b'>');
    let first = l.first;
    let end = first.plus(l.count);
    put_params(text, params, first, end, out, behind)
}

// All links, from the buffer's first octet on.
pub fn put_links(t: &Table, out: &mut [u8]) -> OutPlace
    requires usable { Usable Rfc5988 (lent t.now) }
    requires params_in_bounds { length (written_form (lent t.now)) ≤ length out.old }
    ensures { Put out.old out.new 0 result.0
        (written_form (lent t.now)) }
{
    let first = LinkNumber::first();
    let mut at = OutPlace::start();
    for i in 0..t.counts.links {
        let link = first.plus(i);
        let l = records::link_at(t.links, link);
        let behind = put_parting(out, at, i == 0);
        at = put_link(t.text, t.params, l, out, behind);
    }
    at
}
