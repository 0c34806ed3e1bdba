// A header that arrives in parts. Each part is judged from the spot on at which the one before it ended, and then stored behind what
// was gathered; so no octet of an earlier part is looked at again, however the header is cut, and a refusal stores nothing.
#![tactic(auto)]

ghost use Rattle.std.specs.Prelude.{◌≡◌, ◌+◌, suc, min, length, Err};
ghost use Rattle.outcomes.specs.Number.{limit};
ghost use Rattle.outcomes.specs.Feeding.{start, moved_to, start_in, FeedsIn, Feeds, FinishesIn, Finishes};
ghost use Rattle.answers.specs.Read.{read_numbers, read_out};
ghost use Rattle.answers.specs.Feed.{feed_numbers, feed_out, state_of};
ghost use Rattle.feeding.specs.Taking.{Takes, held_spot};

use answers::feed_answer::{FeedAnswer, Feeding};
use answers::read_answer::{ReadAnswer, ReadError};
use answers::{LIMIT, Refusal};
use kinds::{OutPlace, Place, Span};
use octets::editions::{Edition, edition_of};
use part_scan::{PartScan, scan_part};
use phases::spot::Spot;

// The state that a feeding starts with, in the edition of this number, if there is one.
pub fn start(edition: usize) -> Feeding
    ensures { state_of result ≡ start edition }
{
    Feeding {
        edition,
        phase: 0,
        total: 0,
        place: 0,
        target: 0,
        judged: 0,
    }
}

// How many octets count with these more. Behind the limit they are counted no further, so that no sum wraps.
fn total_with(before: usize, more: usize) -> usize
    ensures { result ≡ min (before + more) (suc limit) }
{
    if before > LIMIT {
        return LIMIT + 1;
    }
    if more > LIMIT - before {
        return LIMIT + 1;
    }
    before + more
}

// The state behind a refusal: only the total and the place move.
fn moved(state: Feeding, total: usize, place: usize) -> Feeding
    ensures { state_of result ≡ moved_to (state_of state) total place }
{
    let mut next = state;
    next.total = total;
    next.place = place;
    next
}

// What a refusal answers.
fn refused(why: ReadError, next: Feeding) -> FeedAnswer
    ensures { result ≡ record { told = Err why; next = next } }
{
    FeedAnswer {
        told: Err(why),
        next,
    }
}

// Where the open target starts. Whatever the state names, it is no place behind the octets that counted, so that a fault that is told is
// remembered.
fn start_in(state: Feeding) -> Place
    ensures { result.0 ≡ start_in (state_of state) }
{
    let named = state.target;
    let total = state.total;
    if total < named {
        return Place(total);
    }
    Place(named)
}

// Where reading stands.
fn spot_of(state: Feeding) -> Spot
    ensures { result ≡ held_spot (state_of state) }
{
    let target = start_in(state);
    Spot {
        phase: state.phase,
        target,
        judged: state.judged,
    }
}

// All of a part.
fn whole(part: &[u8]) -> Span
    ensures { (result.from.0 ≡ 0) × (result.to.0 ≡ length part.now) }
{
    Span {
        from: Place(0),
        to: Place(part.len()),
    }
}

// A part for which there is room, behind octets of which nothing is wrong.
fn take(edition: Edition, state: Feeding, part: &[u8], buffer: &mut [u8]) -> FeedAnswer
    requires { Takes (state_of state) part.now buffer.old }
    ensures { FeedsIn (state_of state) part.now buffer.old edition
        (feed_out (feed_numbers result) buffer.new) (state_of (feed_numbers result).next) }
{
    let before = state.total;
    let total = before + part.len();
    match scan_part(edition, part, before, spot_of(state)) {
        PartScan::Stuck(at) => {
            let place = before + at.0;
            refused(
                ReadError::Malformed(Place(place)),
                moved(state, total, place),
            )
        }
        PartScan::Unfit(start) => refused(
            ReadError::Malformed(start),
            moved(state, total, start.0),
        ),
        PartScan::Through(spot) => {
            putting::part::put_part(part, whole(part), buffer, OutPlace(before));
            let next = Feeding {
                edition: state.edition,
                phase: spot.phase,
                total,
                place: total,
                target: spot.target.0,
                judged: spot.judged,
            };
            FeedAnswer { told: Ok(()), next }
        }
    }
}

// One part more. Within the limit, the place lies before the total just if something is wrong with the octets so far.
fn feed_in(edition: Edition, state: Feeding, part: &[u8], buffer: &mut [u8]) -> FeedAnswer
    ensures { FeedsIn (state_of state) part.now buffer.old edition
        (feed_out (feed_numbers result) buffer.new) (state_of (feed_numbers result).next) }
{
    let before = state.total;
    let place = state.place;
    let sum = total_with(before, part.len());
    if buffer.len() < LIMIT {
        return refused(Refusal::NoOutputRoom.into(), moved(state, before, place));
    }
    if sum > LIMIT {
        return refused(Refusal::TooLong.into(), moved(state, sum, place));
    }
    if place < before {
        return refused(ReadError::Malformed(Place(place)), moved(state, sum, place));
    }
    take(edition, state, part, buffer)
}

// One part more, if the edition is known that was asked for at the start.
pub fn feed(state: Feeding, part: &[u8], buffer: &mut [u8]) -> FeedAnswer
    ensures { Feeds (state_of state) part.now buffer.old
        (feed_out (feed_numbers result) buffer.new) (state_of (feed_numbers result).next) }
{
    let Some(edition) = edition_of(state.edition) else {
        return refused(Refusal::UnknownEdition.into(), state);
    };
    feed_in(edition, state, part, buffer)
}

// Reads what was gathered. Octets of which something is wrong were not gathered whole: their place is remembered.
fn finish_in(
    edition: Edition,
    state: Feeding,
    gathered: &[u8],
    links: &mut [usize],
    params: &mut [usize],
) -> ReadAnswer
    ensures { FinishesIn (state_of state) gathered.now links.old params.old edition
        (read_out (read_numbers result) links.new params.new) }
{
    let total = state.total;
    let place = state.place;
    if gathered.len() < LIMIT {
        return Err(Refusal::NoOutputRoom.into());
    }
    if total > LIMIT {
        return Err(Refusal::TooLong.into());
    }
    if place < total {
        return Err(ReadError::Malformed(Place(place)));
    }
    reader::read_in(edition, &gathered[..total], links, params)
}

// Reads what was gathered, if the edition is known that was asked for at the start.
pub fn finish(
    state: Feeding,
    gathered: &[u8],
    links: &mut [usize],
    params: &mut [usize],
) -> ReadAnswer
    ensures { Finishes (state_of state) gathered.now links.old params.old
        (read_out (read_numbers result) links.new params.new) }
{
    let edition = edition_of(state.edition).ok_or(Refusal::UnknownEdition)?;
    finish_in(edition, state, gathered, links, params)
}
