// Writes a table in its written form. Relations are asked of every link, then whether the form fits the limit and the room, and then it
// is written; so a refusal leaves the buffer as it was.
#![tactic(auto)]

ghost use Rattle.octets.specs.declared.editions.Edition.TheVariants.{Rfc5988};
ghost use Rattle.answers.specs.Length.{length_numbers, length_out};
ghost use Rattle.outcomes.specs.Usable.{Usable};
ghost use Rattle.outcomes.specs.Write.{Wrote, Write};
ghost use Rattle.lent.specs.Lent.{lent};

use answers::Refusal;
use answers::length_answer::LengthAnswer;
use lent::Table;
use link_forms::put_links;
use table_check::state_of;

mod related;
mod room;

// Writes a table that may be used. The older edition stands for all: what is good in any of them is good in it.
fn write_table(t: &Table, out: &mut [u8]) -> LengthAnswer
    requires { Usable Rfc5988 (lent t.now) }
    ensures { Wrote (lent t.now)
        out.old (length_out (length_numbers result) out.new) }
{
    if !related::all_related(t) {
        return Err(Refusal::NoRelation);
    }
    room::fit_of(t, out.len())?;
    let end = put_links(t, out);
    Ok(end.0)
}

// Writes the table's written form, and answers its length.
pub fn write(edition: usize, t: &Table, out: &mut [u8]) -> LengthAnswer
    ensures { Write edition (lent t.now)
        out.old (length_out (length_numbers result) out.new) }
{
    state_of(edition, t)?;
    write_table(t, out)
}
