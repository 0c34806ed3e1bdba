// Value copy: what one parameter's value means, written into a buffer that is lent.
#![tactic(auto)]

ghost use Rattle.octets.specs.declared.editions.Edition.TheVariants.{Rfc5988};
ghost use Rattle.outcomes.specs.Usable.{Usable};
ghost use Rattle.outcomes.specs.Copy.{Copied, Copy};
ghost use Rattle.tables.specs.Good.{InText};
ghost use Rattle.answers.specs.Length.{length_numbers, length_out};
ghost use Rattle.values.specs.Rest.{rest};
ghost use Rattle.copy.specs.Room.{InRoom};
ghost use Rattle.lent.specs.Lent.{lent};

use answers::Refusal;
use answers::length_answer::LengthAnswer;
use kinds::{LinkNumber, OutPlace, Span};
use lent::Table;
use table_check::state_of;
use values::{copy_meaning, meaning_len};

// Measures what the part means, and writes it if there is room.
pub fn copy_part(text: &[u8], part: Span, out: &mut [u8]) -> LengthAnswer
    requires { InText text.now part.from.0 part.to.0 }
    ensures { InRoom out.old (rest text.now part.to.0 part.from.0)
        (length_out (length_numbers result) out.new) }
{
    let n = meaning_len(text, part);
    if n > out.len() {
        return Err(Refusal::NoOutputRoom);
    }
    copy_meaning(text, part, out, OutPlace::start());
    Ok(n)
}

// Copies the value that the link and the index name. The older edition stands for all: what is good in any of them is good in it.
fn copy_at(t: &Table, link: LinkNumber, index: usize, out: &mut [u8]) -> LengthAnswer
    requires { Usable Rfc5988 (lent t.now) }
    ensures { Copied (lent t.now)
        link.0 index out.old (length_out (length_numbers result) out.new) }
{
    if link.0 >= t.counts.links {
        return Err(Refusal::NoSuchLink);
    }
    let l = records::link_at(t.links, link);
    if index >= l.count {
        return Err(Refusal::NotFound);
    }
    let p = records::parts_at(t.params, l.first.plus(index));
    let part = p.value;
    copy_part(t.text, part, out)
}

// Writes what the value of the parameter means that stands at `index` within the link, and answers how many octets that is.
pub fn value(
    edition: usize,
    t: &Table,
    link: LinkNumber,
    index: usize,
    out: &mut [u8],
) -> LengthAnswer
    ensures { Copy edition (lent t.now)
        link.0 index out.old (length_out (length_numbers result) out.new) }
{
    state_of(edition, t)?;
    copy_at(t, link, index, out)
}
