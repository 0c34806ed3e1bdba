// A walk over packs that are known: so many steps by one relation, from pack to pack.
#![tactic(auto)]

ghost use Rattle.std.specs.Prelude.{◌+◌, ◌≤◌, ◌<◌, length};
ghost use Rattle.outcomes.specs.Number.{limit};
ghost use Rattle.catalogues.specs.Outcome.{step_limit};
ghost use Rattle.paces.specs.Paces.{relation_on};
ghost use Rattle.stepping.specs.Known.{KnownPacks};
ghost use Rattle.pack_walk.specs.Walked.{WalksOn, WalksFrom};

use answers::walk_answer::{End, Ended, WalkAnswer};
use answers::{LIMIT, Refusal};
use kinds::PackNumber;
use paces::Way;
use pack_index::Packs;
use stepping::step;

// Walks on from a pack, behind so many steps taken, with so many left to take. Each step taken leaves one step fewer.
fn walk_on(
    p: &Packs,
    pack: PackNumber,
    way: Way,
    left: usize,
    steps: usize,
    links: &mut [usize],
    params: &mut [usize],
    work: &mut [u8],
) -> WalkAnswer
    requires { KnownPacks p.now.text.now p.now.index.now p.now.count (length links.old) (length params.old) × (pack.0 < p.now.count)
        × (limit ≤ length work.old) × (steps + left ≤ step_limit) }
    ensures { WalksOn p.now.text.now p.now.index.now p.now.count (length links.old) (length params.old) (relation_on way)
        left pack.0 steps result }
{
    if left == 0 {
        let end = End::Arrived;
        return Ok(Ended { end, pack, steps });
    }
    let stepped = step(p, pack, way, links, params, work);
    match stepped {
        Err(end) => Ok(Ended { end, pack, steps }),
        Ok(next) => walk_on(p, next, way, left - 1, steps + 1, links, params, work),
    }
}

// Walks from a pack, if there is such a start, and octets enough for resolving.
pub fn walk_from(
    p: &Packs,
    start: PackNumber,
    way: Way,
    steps: usize,
    links: &mut [usize],
    params: &mut [usize],
    work: &mut [u8],
) -> WalkAnswer
    requires { KnownPacks p.now.text.now p.now.index.now p.now.count (length links.old) (length params.old) × (steps ≤ step_limit) }
    ensures { WalksFrom p.now.text.now p.now.index.now p.now.count (length links.old) (length params.old)
        (length work.old) (relation_on way) steps start.0 result }
{
    if start.0 >= p.count {
        return Err(Refusal::NoSuchLink);
    }
    if work.len() < LIMIT {
        return Err(Refusal::NoOutputRoom);
    }
    walk_on(p, start, way, steps, 0, links, params, work)
}
