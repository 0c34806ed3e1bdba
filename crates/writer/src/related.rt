// Whether the links have relations.
ghost use Rattle.std.specs.Prelude.{◌≡◌, not};
ghost use Rattle.octets.specs.declared.editions.Edition.TheVariants.{Rfc5988};
ghost use Rattle.named.specs.First.{Listed};
ghost use Rattle.outcomes.specs.Usable.{Usable};
ghost use Rattle.records.specs.Slots.{to_link};
ghost use Rattle.runs.specs.Runs.{is_none};
ghost use Rattle.tables.specs.Relation.{relations};
ghost use Rattle.writer.specs.Related.{TellsRelated};
ghost use Rattle.lent.specs.Lent.{lent};

use kinds::LinkNumber;
use lent::Table;
use named::first_of;
use names::REL;
use records::LinkRecord;
use runs::has_runs;

// Whether a link has a relation: its first `rel` is asked, and no other.
fn is_related(text: &[u8], params: &[usize], l: LinkRecord) -> bool
    requires { Listed text.now params.now l }
    ensures { result ≡ not (is_none (relations text.now (to_link params.now l))) }
{
    let rel = first_of(params, l, REL);
    match rel {
        Some(p) => has_runs(text, p.value),
        None => false,
    }
}

// Whether every link has a relation.
pub fn all_related(t: &Table) -> bool
    requires { Usable Rfc5988 (lent t.now) }
    ensures { TellsRelated (lent t.now) result }
{
    let first = LinkNumber::first();
    for i in 0..t.counts.links {
        let link = first.plus(i);
        let l = records::link_at(t.links, link);
        if !is_related(t.text, t.params, l) {
            return false;
        }
    }
    true
}
