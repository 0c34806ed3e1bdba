// A header read with notes of so many records. It is judged whole, counted and noted, the rooms are tested once, and then the records are
// filled in; so a refusal leaves both tables as they were.
#![tactic(auto)]

ghost use Rattle.std.specs.Prelude.{◌≤◌, length};
ghost use Rattle.outcomes.specs.Number.{limit};
ghost use Rattle.outcomes.specs.Read.{ReadIn};
ghost use Rattle.answers.specs.Read.{read_numbers, read_out};

use answers::Refusal;
use answers::read_answer::{ReadAnswer, ReadError};
use noted_fill::fill;
use octets::editions::Edition;
use scanner::header::scan;

// In an edition that is known. What the notes hold afterwards is free.
pub fn read_noting(
    edition: Edition,
    header: &[u8],
    link_notes: &mut [u16],
    param_notes: &mut [u16],
    links: &mut [usize],
    params: &mut [usize],
) -> ReadAnswer
    requires { length header.now ≤ limit }
    ensures { ReadIn edition header.now links.old params.old
        (read_out (read_numbers result) links.new params.new) }
{
    let counts = match scan(edition, header, link_notes, param_notes) {
        Err(place) => return Err(ReadError::Malformed(place)),
        Ok(scanned) => scanned,
    };
    let link_room = records::link_room(links);
    let param_room = records::param_room(params);
    if link_room < counts.links {
        return Err(Refusal::NoLinkRoom.into());
    }
    if param_room < counts.params {
        return Err(Refusal::NoParamRoom.into());
    }
    fill(
        edition,
        header,
        counts,
        link_notes,
        param_notes,
        links,
        params,
    );
    Ok(counts)
}
