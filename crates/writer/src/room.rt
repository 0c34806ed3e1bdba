// Whether the written form goes into a buffer.
ghost use Rattle.std.specs.Prelude.{length};
ghost use Rattle.octets.specs.declared.editions.Edition.TheVariants.{Rfc5988};
ghost use Rattle.outcomes.specs.Usable.{Usable};
ghost use Rattle.outcomes.specs.Write.{written_form};
ghost use Rattle.writer.specs.Room.{IsFit};
ghost use Rattle.lent.specs.Lent.{lent};

use answers::{LIMIT, Refusal};
use lent::Table;
use measuring::{form_bound, form_len};

// The form is within the limit and the room, or is refused; the limit comes first. It is measured only where its bound doesn't fit.
pub fn fit_of(t: &Table, room: usize) -> Result<(), Refusal>
    requires { Usable Rfc5988 (lent t.now) }
    ensures { IsFit
        (length (written_form (lent t.now)))
        room result }
{
    let bound = form_bound(t);
    if bound <= LIMIT && bound <= room {
        return Ok(());
    }
    let n = form_len(t);
    if n > LIMIT {
        return Err(Refusal::TooLong);
    }
    if n > room {
        return Err(Refusal::NoOutputRoom);
    }
    Ok(())
}
