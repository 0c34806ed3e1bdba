// Link records and parameter records, and the one place where the kinds of number are converted to and from the slots of a table.
#![tactic(auto)]

ghost use Rattle.std.specs.Prelude.{◌≡◌, ◌*◌, ◌<◌};
ghost use Rattle.std.proofs.lemmas.List.Edits.{sets};
ghost use Rattle.grammar.specs.Records.{link_width, param_width, link_room_of, param_room_of};
ghost use Rattle.tables.specs.Table.{param_at, code_at};
ghost use Rattle.records.specs.Slots.{IsLink, IsParam, to_param, link_numbers, param_numbers};

use kinds::{LinkNumber, ParamNumber, Place, Span};

// How many slots a link record takes.
pub const LINK_SLOTS: usize = 4;

// How many slots a parameter record takes.
pub const PARAM_SLOTS: usize = 6;

// A link record.
#[derive(Clone, Copy)]
pub struct LinkRecord {
    pub target: Span,
    pub first: ParamNumber,
    pub count: usize,
}

// The parts of a parameter: where its name and its value stand, and the value's form. The form is a number and no enum, and so is a code: a
// table that C lends may hold any (`tables/specs/Good` says which are good).
#[derive(Clone, Copy)]
pub struct ParamParts {
    pub name: Span,
    pub value: Span,
    pub form: usize,
}

// A parameter record: the parts, and the code of the name.
#[derive(Clone, Copy)]
pub struct ParamRecord {
    pub parts: ParamParts,
    pub code: usize,
}

impl LinkRecord {
    // Its numbers, as they stand in slots.
    pub fn numbers(self) -> [usize; LINK_SLOTS]
        ensures { result ≡ link_numbers self }
    {
        [
            self.target.from.0,
            self.target.to.0,
            self.first.0,
            self.count,
        ]
    }
}

impl ParamRecord {
    // Its numbers, as they stand in slots.
    pub fn numbers(self) -> [usize; PARAM_SLOTS]
        ensures { result ≡ param_numbers self }
    {
        [
            self.parts.name.from.0,
            self.parts.name.to.0,
            self.parts.value.from.0,
            self.parts.value.to.0,
            self.parts.form,
            self.code,
        ]
    }
}

// For how many link records the slots have room.
pub fn link_room(slots: &[usize]) -> usize
    ensures { result ≡ link_room_of slots.now }
{
    slots.len() / LINK_SLOTS
}

// For how many parameter records the slots have room.
pub fn param_room(slots: &[usize]) -> usize
    ensures { result ≡ param_room_of slots.now }
{
    slots.len() / PARAM_SLOTS
}

// Link record number n.
pub fn link_at(slots: &[usize], n: LinkNumber) -> LinkRecord
    requires { n.0 < link_room_of slots.now }
    ensures { IsLink slots.now n.0 result }
{
    let at = LINK_SLOTS * n.0;
    LinkRecord {
        target: Span {
            from: Place(slots[at]),
            to: Place(slots[at + 1]),
        },
        first: ParamNumber(slots[at + 2]),
        count: slots[at + 3],
    }
}

// The parts in parameter record number n.
pub fn parts_at(slots: &[usize], n: ParamNumber) -> ParamParts
    requires { n.0 < param_room_of slots.now }
    ensures { to_param result ≡ param_at slots.now n.0 }
{
    let at = PARAM_SLOTS * n.0;
    ParamParts {
        name: Span {
            from: Place(slots[at]),
            to: Place(slots[at + 1]),
        },
        value: Span {
            from: Place(slots[at + 2]),
            to: Place(slots[at + 3]),
        },
        form: slots[at + 4],
    }
}

// The code in parameter record number n.
pub fn code_at(slots: &[usize], n: ParamNumber) -> usize
    requires { n.0 < param_room_of slots.now }
    ensures { result ≡ code_at slots.now n.0 }
{
    slots[PARAM_SLOTS * n.0 + 5]
}

// Parameter record number n.
pub fn param_at(slots: &[usize], n: ParamNumber) -> ParamRecord
    requires { n.0 < param_room_of slots.now }
    ensures { IsParam slots.now n.0 result }
{
    let parts = parts_at(slots, n);
    let code = code_at(slots, n);
    ParamRecord { parts, code }
}

// Writes link record number n.
pub fn put_link(slots: &mut [usize], n: LinkNumber, r: LinkRecord)
    requires { n.0 < link_room_of slots.old }
    ensures { slots.new ≡ sets slots.old (link_width * n.0) (link_numbers r) }
{
    let at = LINK_SLOTS * n.0;
    slots[at] = r.target.from.0;
    slots[at + 1] = r.target.to.0;
    slots[at + 2] = r.first.0;
    slots[at + 3] = r.count;
}

// Writes parameter record number n.
pub fn put_param(slots: &mut [usize], n: ParamNumber, r: ParamRecord)
    requires { n.0 < param_room_of slots.old }
    ensures { slots.new ≡ sets slots.old (param_width * n.0) (param_numbers r) }
{
    let at = PARAM_SLOTS * n.0;
    slots[at] = r.parts.name.from.0;
    slots[at + 1] = r.parts.name.to.0;
    slots[at + 2] = r.parts.value.from.0;
    slots[at + 3] = r.parts.value.to.0;
    slots[at + 4] = r.parts.form;
    slots[at + 5] = r.code;
}
