// What every entry over a table asks of it first.
#![tactic(auto)]

ghost use Rattle.table_check.specs.State.{StateIn, IsState};
ghost use Rattle.lent.specs.Lent.{lent};

use answers::{LIMIT, Refusal};
use lent::Table;
use octets::editions::{Edition, edition_of};

mod links;

// In an edition that is known: a text that is too long is refused first, and then a table that isn't good.
fn state_in(edition: Edition, t: &Table) -> Result<(), Refusal>
    ensures { StateIn edition (lent t.now) result }
{
    if t.text.len() > LIMIT {
        return Err(Refusal::TooLong);
    }
    if !links::is_good(edition, t) {
        return Err(Refusal::BadTable);
    }
    Ok(())
}

// The table may be used, or why it is refused. The number of an edition that there isn't is refused before all else.
pub fn state_of(edition: usize, t: &Table) -> Result<(), Refusal>
    ensures { IsState edition
        (lent t.now) result }
{
    let known = edition_of(edition).ok_or(Refusal::UnknownEdition)?;
    state_in(known, t)
}
