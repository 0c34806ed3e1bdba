// Reads a header into lent tables, with notes for as many records as a header of its length mostly has.
#![tactic(auto)]

ghost use Rattle.std.specs.Prelude.{length, ◌≤◌};
ghost use Rattle.outcomes.specs.Read.{Read, ReadIn};
ghost use Rattle.outcomes.specs.Number.{limit};
ghost use Rattle.answers.specs.Read.{read_numbers, read_out};

use answers::read_answer::ReadAnswer;
use answers::{LIMIT, Refusal};
use octets::editions::{Edition, edition_of};
use reading::read_noting;
use records::{LINK_SLOTS, PARAM_SLOTS};

// The slots of notes for so many links and so many parameters: those of a short header, of longer ones, and the most that any gets.
const SHORT_LINKS: usize = 4 * LINK_SLOTS;

const SHORT_PARAMS: usize = 8 * PARAM_SLOTS;

const MIDDLE_LINKS: usize = 16 * LINK_SLOTS;

const MIDDLE_PARAMS: usize = 32 * PARAM_SLOTS;

const LONG_LINKS: usize = 24 * LINK_SLOTS;

const LONG_PARAMS: usize = 64 * PARAM_SLOTS;

const MOST_LINKS: usize = 160 * LINK_SLOTS;

const MOST_PARAMS: usize = 320 * PARAM_SLOTS;

// With notes of so many slots. Each number of slots has a bound, since an array that is lent must be known to fit the memory. Notes are made
// of a number that the compiler doesn't know: of zeros it would make a call of the C library.
fn with_notes<const LINKS: usize, const PARAMS: usize>(
    any: u16,
    edition: Edition,
    header: &[u8],
    links: &mut [usize],
    params: &mut [usize],
) -> ReadAnswer
    requires short { length header.now ≤ limit }
    requires few_links { LINKS ≤ MOST_LINKS }
    requires few_params { PARAMS ≤ MOST_PARAMS }
    ensures { ReadIn edition header.now links.old params.old
        (read_out (read_numbers result) links.new params.new) }
{
    let mut ls = [any; LINKS];
    let mut ps = [any; PARAMS];
    read_noting(edition, header, &mut ls, &mut ps, links, params)
}

// In an edition that is known. Short headers get fewer notes, since making them takes time too: of the links and parameters that headers of
// their length mostly have.
pub fn read_in(
    edition: Edition,
    header: &[u8],
    links: &mut [usize],
    params: &mut [usize],
) -> ReadAnswer
    ensures { ReadIn edition header.now links.old params.old
        (read_out (read_numbers result) links.new params.new) }
{
    let n = header.len();
    if n > LIMIT {
        return Err(Refusal::TooLong.into());
    }
    let any = (n % 65536) as u16;
    if n <= 128 {
        return with_notes::<SHORT_LINKS, SHORT_PARAMS>(any, edition, header, links, params);
    }
    if n <= 512 {
        return with_notes::<MIDDLE_LINKS, MIDDLE_PARAMS>(any, edition, header, links, params);
    }
    if n <= 1024 {
        return with_notes::<LONG_LINKS, LONG_PARAMS>(any, edition, header, links, params);
    }
    with_notes::<MOST_LINKS, MOST_PARAMS>(any, edition, header, links, params)
}

// In the edition of this number, if there is one.
pub fn read(edition: usize, header: &[u8], links: &mut [usize], params: &mut [usize]) -> ReadAnswer
    ensures { Read edition header.now links.old params.old
        (read_out (read_numbers result) links.new params.new) }
{
    let known = edition_of(edition).ok_or(Refusal::UnknownEdition)?;
    read_in(known, header, links, params)
}
