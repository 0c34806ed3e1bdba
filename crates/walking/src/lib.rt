// A walk through the packs of a catalogue.
#![tactic(auto)]

ghost use Rattle.std.specs.Prelude.{◌≤◌};
ghost use Rattle.catalogues.specs.Outcome.{step_limit, Walk, room_of, LeftFree};
ghost use Rattle.answers.specs.Walk.{walk_numbers};
ghost use Rattle.pack_walk.specs.Walked.{walk_out};
ghost use Rattle.walking.specs.Asked.{WalksOver};

use answers::Refusal;
use answers::walk_answer::WalkAnswer;
use catalogue_check::{PACKS, check};
use kinds::PackNumber;
use paces::{Way, paces_of};
use pack_index::{PACK_SLOTS, Packs};
use pack_walk::walk_from;

// Walks over a text, if it is a catalogue. It is checked once. The index is made of a number that the compiler doesn't know: of zeros it
// would make a call of the C library.
fn walk_over(
    catalogue: &[u8],
    start: PackNumber,
    way: Way,
    steps: usize,
    links: &mut [usize],
    params: &mut [usize],
    work: &mut [u8],
) -> WalkAnswer
    requires { steps ≤ step_limit }
    ensures { WalksOver catalogue.now (room_of links.old params.old work.old) start.0 way steps result }
{
    let any = catalogue.len();
    let mut index = [any; PACKS * PACK_SLOTS];
    let count = check(catalogue, links, params, &mut index).ok_or(Refusal::BadCatalogue)?;
    let p = Packs {
        text: catalogue,
        index: &index,
        count,
    };
    walk_from(&p, start, way, steps, links, params, work)
}

// Walks so many steps over a catalogue, from the pack numbered `start`.
pub fn walk(
    catalogue: &[u8],
    start: PackNumber,
    steps: i32,
    links: &mut [usize],
    params: &mut [usize],
    work: &mut [u8],
) -> WalkAnswer
    ensures walk { Walk catalogue.now (room_of links.old params.old work.old) start.0 steps
        (walk_out (walk_numbers result)) }
    ensures left_free { LeftFree links.old params.old work.old links.new params.new work.new }
{
    let asked = paces_of(steps).ok_or(Refusal::OutOfRange)?;
    walk_over(
        catalogue,
        start,
        asked.way,
        asked.steps,
        links,
        params,
        work,
    )
}
