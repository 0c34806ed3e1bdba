// Titles: that of a link, which its `title*` gives or its `title` means, and what one extended value gives. An extended value is judged
// and measured, and a `title` measured, before anything is written.
#![tactic(auto)]

ghost use Rattle.std.specs.Prelude.{◌≡◌, ◌≤◌, length};
ghost use Rattle.octets.specs.declared.editions.Edition.TheVariants.{Rfc5988};
ghost use Rattle.extended.specs.Decoded.{given};
ghost use Rattle.outcomes.specs.Usable.{Usable};
ghost use Rattle.outcomes.specs.Title.{Titled, Titles};
ghost use Rattle.outcomes.specs.Decode.{Decode};
ghost use Rattle.answers.specs.Length.{length_numbers, length_out};
ghost use Rattle.named.specs.First.{Listed};
ghost use Rattle.units.specs.Seen.{seen};
ghost use Rattle.decoding.specs.Measured.{octets_given, IsGiven};
ghost use Rattle.copy.specs.Room.{InRoom};
ghost use Rattle.titles.specs.Plain.{Plain};
ghost use Rattle.lent.specs.Lent.{lent};

use answers::length_answer::LengthAnswer;
use answers::{LIMIT, Refusal};
use copy::copy_part;
use decoding::judge;
use decoding::octets_given::put_given;
use kinds::{LinkNumber, OutPlace, Place, Span};
use lent::Table;
use records::LinkRecord;
use table_check::state_of;
use units::Reading;

// Writes the n octets that are given from `from` to e, if there is room.
fn write_given(
    s: &[u8],
    from: Place,
    e: Place,
    how: Reading,
    n: usize,
    out: &mut [u8],
) -> LengthAnswer
    requires { (e.0 ≤ length s.now)
        × IsGiven (given (seen how s.now e.0 from.0))
        × (n ≡ length (octets_given (given (seen how s.now e.0 from.0)))) }
    ensures { InRoom out.old (octets_given (given (seen how s.now e.0 from.0)))
        (length_out (length_numbers result) out.new) }
{
    if n > out.len() {
        return Err(Refusal::NoOutputRoom);
    }
    put_given(s, from, e, how, out, OutPlace::start());
    Ok(n)
}

// Writes what the link's `title` means, if it has one.
fn plain_title(text: &[u8], params: &[usize], l: LinkRecord, out: &mut [u8]) -> LengthAnswer
    requires { Listed text.now params.now l }
    ensures { Plain text.now params.now l out.old (length_out (length_numbers result) out.new) }
{
    let title = named::first_of(params, l, names::TITLE).ok_or(Refusal::NotFound)?;
    copy_part(text, title.value, out)
}

// Writes the link's title. The older edition stands for all: what is good in any of them is good in it.
fn title_at(t: &Table, link: LinkNumber, out: &mut [u8]) -> LengthAnswer
    requires { Usable Rfc5988 (lent t.now) }
    ensures { Titled (lent t.now)
        link.0 out.old (length_out (length_numbers result) out.new) }
{
    if link.0 >= t.counts.links {
        return Err(Refusal::NoSuchLink);
    }
    let l = records::link_at(t.links, link);
    let Some(star) = named::first_of(t.params, l, names::TITLE_STAR) else {
        return plain_title(t.text, t.params, l, out);
    };
    let part = star.value;
    let judged = judge(t.text, part, Reading::Unescaped);
    match judged {
        None => plain_title(t.text, t.params, l, out),
        Some(chars) => write_given(
            t.text,
            chars.from,
            part.to,
            Reading::Unescaped,
            chars.count,
            out,
        ),
    }
}

// Writes the title of a link, and answers how many octets that is.
pub fn title(edition: usize, t: &Table, link: LinkNumber, out: &mut [u8]) -> LengthAnswer
    ensures { Titles edition (lent t.now)
        link.0 out.old (length_out (length_numbers result) out.new) }
{
    state_of(edition, t)?;
    title_at(t, link, out)
}

// Writes what one extended value gives, as it stands, and answers how many octets that is.
pub fn decode(value: &[u8], out: &mut [u8]) -> LengthAnswer
    ensures { Decode value.now out.old (length_out (length_numbers result) out.new) }
{
    let end = value.len();
    if end > LIMIT {
        return Err(Refusal::TooLong);
    }
    let part = Span::up_to(end);
    let judged = judge(value, part, Reading::AsItStands);
    match judged {
        None => Err(Refusal::BadExtended),
        Some(chars) => write_given(
            value,
            chars.from,
            part.to,
            Reading::AsItStands,
            chars.count,
            out,
        ),
    }
}
