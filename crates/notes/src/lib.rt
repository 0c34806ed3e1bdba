// Notes of records, taken while a header is judged, so that its tables can be filled without a second look at it. A note is a record's
// numbers, in the order of a table's slots, in 16 bits each: as many as a header within the limit needs. A note for which there is no
// room is left out.
#![tactic(auto)]

ghost use Rattle.std.specs.Prelude.{◌≡◌, cond, [], map, ◌+◌, ◌*◌, ◌≤◌, length, take};
ghost use Rattle.std.proofs.lemmas.List.Edits.{sets};
ghost use Rattle.grammar.specs.Records.{link_width, param_width};
ghost use Rattle.records.specs.Slots.{link_numbers, param_numbers};
ghost use Rattle.notes.specs.Noted.{low, Noted};

use kinds::{LinkNumber, ParamNumber};
use records::{LINK_SLOTS, LinkRecord, PARAM_SLOTS, ParamRecord};

// The numbers, from slot `at` on.
fn put(notes: &mut [u16], at: usize, numbers: &[usize])
    requires { at + length numbers.now ≤ length notes.old }
    ensures { notes.new ≡ sets notes.old at (map low numbers.now) }
{
    for k in 0..numbers.len() {
        notes[at + k] = (numbers[k] % 65536) as u16;
    }
}

// Link record number n.
pub fn note_link(notes: &mut [u16], n: LinkNumber, r: LinkRecord)
    ensures { Noted notes.old notes.new (link_width * n.0) (link_numbers r) }
{
    if n.0 < notes.len() / LINK_SLOTS {
        let numbers = r.numbers();
        put(notes, LINK_SLOTS * n.0, &numbers);
    }
}

// Parameter record number n, unless its name stood before.
pub fn note_param(notes: &mut [u16], n: ParamNumber, r: ParamRecord, again: bool)
    ensures { Noted notes.old notes.new (param_width * n.0) (cond again [] (param_numbers r)) }
{
    if again {
        return;
    }
    if n.0 < notes.len() / PARAM_SLOTS {
        let numbers = r.numbers();
        put(notes, PARAM_SLOTS * n.0, &numbers);
    }
}

// Fills a table's first slots, so many, with what was noted.
pub fn copy(notes: &[u16], count: usize, slots: &mut [usize])
    requires { (count ≤ length notes.now) × (count ≤ length slots.old) }
    ensures { slots.new ≡ sets slots.old 0 (take count notes.now) }
{
    for k in 0..count {
        slots[k] = notes[k] as usize;
    }
}
