// Whether a text is a catalogue, and where its packs stand in it. Every line is looked at once: its URI is judged, its Link value read by
// itself in the work tables, and its URI looked for among those before it.
#![tactic(auto)]

ghost use Rattle.std.specs.Prelude.{◌*◌, ◌≤◌, ◌<◌, length};
ghost use Rattle.catalogues.specs.Packs.{pack_limit};
ghost use Rattle.catalogue_check.specs.Checked.{Begun, AddedTo, IsChecked};

use accepting::is_accepted;
use kinds::{PackNumber, Place};
use pack_index::{Packs, put_places};
use pack_lines::line_at;

// The most octets of a catalogue, and the most packs in one.
pub const CATALOGUE: usize = 65536;

pub const PACKS: usize = 256;

// Adds the pack whose line begins here to the index of those before it, and tells where the next line begins; or none if no pack could be
// added, so that the text is no catalogue.
fn add_pack(
    s: &[u8],
    from: Place,
    count: usize,
    links: &mut [usize],
    params: &mut [usize],
    index: &mut [usize],
) -> Option<Place>
    requires from_in_bounds { (from.0 < length s.now) × (count < pack_limit) }
    requires pack_limit_in_bounds { (3 * pack_limit ≤ length index.old) × Begun s.now (length links.old) (length params.old) index.old count from.0 }
    ensures { AddedTo s.now (length links.old) (length params.old) index.new count from.0 result }
{
    let p = line_at(s, from)?;
    let f = p.from.0;
    let t = p.tab.0;
    let v = t + 1;
    let e = p.end.0;
    let behind = e + 1;
    if !is_accepted(&s[v..e], links, params) {
        return None;
    }
    let before = Packs {
        text: s,
        index,
        count,
    };
    match before.find(&s[f..t]) {
        Some(_) => None,
        None => {
            put_places(index, PackNumber(count), p);
            Some(Place(behind))
        }
    }
}

// How many packs the catalogue has that the text is, or none if it is no catalogue. If it is one, the index has the places of its packs. What
// the work tables hold afterwards is free, and so is what the index holds if it is none.
pub fn check(
    s: &[u8],
    links: &mut [usize],
    params: &mut [usize],
    index: &mut [usize],
) -> Option<usize>
    requires { 3 * pack_limit ≤ length index.old }
    ensures { IsChecked s.now (length links.old) (length params.old) index.new result }
{
    let n = s.len();
    if n > CATALOGUE {
        return None;
    }
    let mut count = 0;
    let mut at = 0;
    // Each turn passes a line of any length, so a for loop doesn't fit.
    while at < n {
        if count >= PACKS {
            return None;
        }
        let next = add_pack(s, Place(at), count, links, params, index)?;
        at = next.0;
        count += 1;
    }
    Some(count)
}
