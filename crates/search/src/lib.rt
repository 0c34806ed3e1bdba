// Search: the lowest link number of a table that has a relation.
#![tactic(auto)]

ghost use Rattle.octets.specs.declared.editions.Edition.TheVariants.{Rfc5988};
ghost use Rattle.outcomes.specs.Usable.{Usable};
ghost use Rattle.outcomes.specs.Search.{Searched, Search};
ghost use Rattle.answers.specs.Search.{search_numbers, search_out};
ghost use Rattle.lent.specs.Lent.{lent};

use answers::Refusal;
use answers::search_answer::SearchAnswer;
use kinds::LinkNumber;
use lent::Table;
use runs::{match_run, next_run};
use table_check::state_of;

// Over the links, over a link's parameters, and over the runs of its `rel` value. The first run that matches leaves all three with the
// link's number, and a link's first `rel` is the only one that is asked. The older edition stands for all: what is good
// in any of them is good in it.
fn first_with(t: &Table, relation: &[u8]) -> SearchAnswer
    requires { Usable Rfc5988 (lent t.now) }
    ensures { Searched (lent t.now)
        relation.now (search_out (search_numbers result)) }
{
    let mut l = LinkNumber::first();
    'search: loop {
        if l.0 >= t.counts.links {
            break 'search Err(Refusal::NotFound);
        }
        let link = records::link_at(t.links, l);
        let mut p = link.first;
        let end = p.plus(link.count);
        while p.0 < end.0 {
            if records::code_at(t.params, p) == names::REL {
                let value = records::parts_at(t.params, p).value;
                let e = value.to;
                let mut k = next_run(t.text, value.from, e);
                while k.0 < e.0 {
                    let m = match_run(t.text, k, e, relation);
                    if m.same {
                        break 'search Ok(l);
                    }
                    k = next_run(t.text, m.next, e);
                }
                p = end;
            } else {
                p = p.next();
            }
        }
        l = l.next();
    }
}

// The lowest link number that has the relation.
pub fn search(edition: usize, t: &Table, relation: &[u8]) -> SearchAnswer
    ensures { Search edition (lent t.now)
        relation.now (search_out (search_numbers result)) }
{
    state_of(edition, t)?;
    first_with(t, relation)
}
