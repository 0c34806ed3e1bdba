// A step from a pack of a catalogue. The pack's Link value is read once more, since the work tables hold one table at a time; that it is
// accepted is known, and nothing else of the catalogue is looked at again but the URIs.
#![tactic(auto)]

ghost use Rattle.std.specs.Prelude.{◌≡◌, [], ◌∷◌, ◌≤◌, ◌<◌, length};
ghost use Rattle.octets.specs.declared.editions.Edition.TheVariants.{Rfc5988};
ghost use Rattle.references.proofs.Clear.{Free};
ghost use Rattle.outcomes.specs.Number.{limit};
ghost use Rattle.outcomes.specs.Usable.{Usable};
ghost use Rattle.following.specs.Followed.{IsFollowed};
ghost use Rattle.paces.specs.Paces.{relation_on};
ghost use Rattle.accepting.specs.Accepted.{Accepted};
ghost use Rattle.target_steps.specs.Stepped.{Stands};
ghost use Rattle.stepping.specs.Known.{TableRead, StepsOn, KnownPacks, StepsFrom};
ghost use Rattle.lent.specs.Lent.{lent};

use answers::walk_answer::End;
use following::first_followed;
use kinds::{PackNumber, Span};
use lent::Table;
use octets::editions::Edition;
use paces::Way;
use pack_index::{Packs, places_at};
use target_steps::target_pack;

// Where the target of the link followed that way stands, or none if no link is.
fn followed(t: &Table, way: Way) -> Option<Span>
    requires { Usable Rfc5988 (lent t.now) }
    ensures { IsFollowed (lent t.now)
        (relation_on way) result }
{
    match way {
        Way::Next => first_followed(t, b"next"),
        Way::Prev => first_followed(t, b"prev"),
    }
}

// The pack that a step that way leads to, or why it leads to none: from a pack whose Link value was read into these tables.
fn step_along(
    p: &Packs,
    uri: &[u8],
    t: &Table,
    way: Way,
    work: &mut [u8],
) -> Result<PackNumber, End>
    requires stands { Stands p.now.text.now p.now.index.now p.now.count × Free (92 ∷ []) uri.now × (limit ≤ length work.old) }
    requires table_read { TableRead t.now.text.now t.now.links.now t.now.params.now t.now.counts.links t.now.counts.params }
    ensures { StepsOn p.now.text.now p.now.index.now p.now.count uri.now t.now.text.now (relation_on way) result }
{
    let Some(target) = followed(t, way) else {
        return Err(End::NoLink);
    };
    target_pack(p, uri, t.text, target, work)
}

// The same, from the pack that has this URI and this Link value.
fn step_on(
    p: &Packs,
    uri: &[u8],
    value: &[u8],
    way: Way,
    links: &mut [usize],
    params: &mut [usize],
    work: &mut [u8],
) -> Result<PackNumber, End>
    requires stands { Stands p.now.text.now p.now.index.now p.now.count × Free (92 ∷ []) uri.now × (limit ≤ length work.old) }
    requires accepted { Accepted value.now (length links.old) (length params.old) }
    ensures { StepsOn p.now.text.now p.now.index.now p.now.count uri.now value.now (relation_on way) result }
{
    let answer = reader::read_in(Edition::Rfc8288, value, links, params);
    match answer {
        Err(_) => Err(End::NoLink),
        Ok(counts) => {
            let t = Table {
                text: value,
                links,
                params,
                counts,
            };
            step_along(p, uri, &t, way, work)
        }
    }
}

// The pack that a step that way from a pack leads to, or why it leads to none.
pub fn step(
    p: &Packs,
    pack: PackNumber,
    way: Way,
    links: &mut [usize],
    params: &mut [usize],
    work: &mut [u8],
) -> Result<PackNumber, End>
    requires { KnownPacks p.now.text.now p.now.index.now p.now.count (length links.old) (length params.old) × (pack.0 < p.now.count)
        × (limit ≤ length work.old) }
    ensures { StepsFrom p.now.text.now p.now.index.now p.now.count (length links.old) (length params.old) (relation_on way)
        pack.0 result }
{
    let places = places_at(p.index, pack);
    let f = places.from.0;
    let t = places.tab.0;
    let v = t + 1;
    let e = places.end.0;
    step_on(p, &p.text[f..t], &p.text[v..e], way, links, params, work)
}
