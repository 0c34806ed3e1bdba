// Where the packs of a catalogue stand in it, and which of them has a URI. An index has three numbers for each pack: where its URI begins,
// where the tab behind that stands, and where its Link value ends, at the LF.
#![tactic(auto)]

ghost use Rattle.std.specs.Prelude.{◌≡◌, true, ◌+◌, ◌*◌, ◌≤◌, ◌<◌, length};
ghost use Rattle.std.proofs.lemmas.List.Edits.{sets};
ghost use Rattle.octets.specs.Fold.{same};
ghost use Rattle.pack_index.specs.Index.{places_at, numbers_of, SameBlock, Held, FoundBy};

use kinds::{PackNumber, Place};

// How many numbers a pack has.
pub const PACK_SLOTS: usize = 3;

// The places of a pack.
#[derive(Clone, Copy)]
pub struct PackPlaces {
    pub from: Place,
    pub tab: Place,
    pub end: Place,
}

pub fn places_at(index: &[usize], number: PackNumber) -> PackPlaces
    requires { 3 * number.0 + 3 ≤ length index.now }
    ensures { result ≡ places_at index.now number.0 }
{
    let at = PACK_SLOTS * number.0;
    PackPlaces {
        from: Place(index[at]),
        tab: Place(index[at + 1]),
        end: Place(index[at + 2]),
    }
}

pub fn put_places(index: &mut [usize], number: PackNumber, places: PackPlaces)
    requires { 3 * number.0 + 3 ≤ length index.old }
    ensures { index.new ≡ sets index.old (3 * number.0) (numbers_of places) }
{
    let at = PACK_SLOTS * number.0;
    index[at] = places.from.0;
    index[at + 1] = places.tab.0;
    index[at + 2] = places.end.0;
}

// Whether 16 octets from `at` on are the same in both. No test branches, so that it becomes vector code. It compares two texts, and so is
// no twin of what `blocks` asks of one.
fn is_same_block(u: &[u8], v: &[u8], at: usize) -> bool
    requires { (at + 16 ≤ length u.now) × (at + 16 ≤ length v.now) }
    ensures { result ≡ true → SameBlock u.now v.now at 16 }
{
    let mut all = true;
    for k in 0..16 {
        all = all & (u[at + k] == v[at + k]);
    }
    all
}

// Whether two texts are the same octets: their lengths are compared first, and then octets from the last on, since URIs of one catalogue
// mostly begin alike; by blocks, so that texts that differ at their beginning only are told apart soon too.
fn are_same(u: &[u8], v: &[u8]) -> bool
    ensures { result ≡ same u.now v.now }
{
    if u.len() != v.len() {
        return false;
    }
    let mut i = u.len();
    // A range tells no block of 16 that still fits, so this loop counts by itself.
    while 16 <= i && is_same_block(u, v, i - 16) {
        i -= 16;
    }
    for k in (0..i).rev() {
        if u[k] != v[k] {
            return false;
        }
    }
    true
}

// The packs of a catalogue: its text, the index of their places, and how many they are. What goes over them takes them whole.
#[derive(Clone, Copy)]
pub struct Packs<'a> {
    pub text: &'a [u8],
    pub index: &'a [usize],
    pub count: usize,
}

impl Packs<'_> {
    // The first pack whose URI is these octets, or none.
    pub fn find(&self, uri: &[u8]) -> Option<PackNumber>
        requires { Held self.now.text.now self.now.index.now self.now.count }
        ensures { FoundBy self.now.text.now self.now.index.now self.now.count uri.now result }
    {
        for i in 0..self.count {
            let number = PackNumber(i);
            let places = places_at(self.index, number);
            let from = places.from.0;
            let tab = places.tab.0;
            if are_same(&self.text[from..tab], uri) {
                return Some(number);
            }
        }
        None
    }
}
