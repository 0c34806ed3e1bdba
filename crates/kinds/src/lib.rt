// Octet places, link numbers, parameter numbers and pack numbers: kinds that can't be exchanged by mistake, and how each moves on. A place
// in an output buffer is a kind of its own, and both counts of a table go together.
#![tactic(auto)]

ghost use Rattle.std.specs.Prelude.{◌≡◌, ◌+◌, ◌-◌, ◌^◌, ◌≤◌, ◌<◌};

// A place of an octet in the text, counted from 0.
#[derive(Clone, Copy)]
pub struct Place(pub usize);

// A place of an octet in an output buffer, counted from 0.
#[derive(Clone, Copy)]
pub struct OutPlace(pub usize);

// A link's number in its table, counted from 0.
#[derive(Clone, Copy)]
pub struct LinkNumber(pub usize);

// A parameter's number in its table, counted from 0 through the whole table.
#[derive(Clone, Copy)]
pub struct ParamNumber(pub usize);

// A pack's number in its catalogue, counted from 0.
#[derive(Clone, Copy)]
pub struct PackNumber(pub usize);

// How many links and parameters a table has.
#[derive(Clone, Copy)]
pub struct Counts {
    pub links: usize,
    pub params: usize,
}

// A part of the text; its end is one past its last octet.
#[derive(Clone, Copy)]
pub struct Span {
    pub from: Place,
    pub to: Place,
}

// Each kind has a `next` of its own: one trait for the four would be no plainer, since each kind would still give it its number, the way
// back from a number and a law, and each crate that calls `next` would import it.
impl Place {
    // The place behind this one.
    pub fn next(self) -> Place
        requires { self.0 + 1 < 2 ^ 64 }
        ensures { result.0 ≡ self.0 + 1 }
    {
        Place(self.0 + 1)
    }
}

impl OutPlace {
    // The place of the buffer's first octet.
    pub fn start() -> OutPlace
        ensures { result.0 ≡ 0 }
    {
        OutPlace(0)
    }

    // The place behind this one.
    pub fn next(self) -> OutPlace
        requires { self.0 + 1 < 2 ^ 64 }
        ensures { result.0 ≡ self.0 + 1 }
    {
        OutPlace(self.0 + 1)
    }
}

impl LinkNumber {
    // The number of a table's first link.
    pub fn first() -> LinkNumber
        ensures { result.0 ≡ 0 }
    {
        LinkNumber(0)
    }

    // The number of the link behind this one.
    pub fn next(self) -> LinkNumber
        requires { self.0 + 1 < 2 ^ 64 }
        ensures { result.0 ≡ self.0 + 1 }
    {
        LinkNumber(self.0 + 1)
    }

    // The number of the link n further on.
    pub fn plus(self, n: usize) -> LinkNumber
        requires { self.0 + n < 2 ^ 64 }
        ensures { result.0 ≡ self.0 + n }
    {
        LinkNumber(self.0 + n)
    }
}

impl ParamNumber {
    // The number of a table's first parameter.
    pub fn first() -> ParamNumber
        ensures { result.0 ≡ 0 }
    {
        ParamNumber(0)
    }

    // The number of the parameter behind this one.
    pub fn next(self) -> ParamNumber
        requires { self.0 + 1 < 2 ^ 64 }
        ensures { result.0 ≡ self.0 + 1 }
    {
        ParamNumber(self.0 + 1)
    }

    // The number of the parameter n further on.
    pub fn plus(self, n: usize) -> ParamNumber
        requires { self.0 + n < 2 ^ 64 }
        ensures { result.0 ≡ self.0 + n }
    {
        ParamNumber(self.0 + n)
    }

    // How many parameters stand from this one up to the end: none where the end isn't behind it.
    pub fn up_to(self, end: ParamNumber) -> usize
        ensures { result ≡ end.0 - self.0 }
    {
        end.0.saturating_sub(self.0)
    }
}

impl Counts {
    // The number that the link behind those counted has.
    pub fn next_link(self) -> LinkNumber
        ensures { result.0 ≡ self.links }
    {
        LinkNumber(self.links)
    }

    // The number that the parameter behind those counted has.
    pub fn next_param(self) -> ParamNumber
        ensures { result.0 ≡ self.params }
    {
        ParamNumber(self.params)
    }
}

impl Span {
    // The first n octets of a text: all of it, where it has n.
    pub fn up_to(n: usize) -> Span
        ensures { (result.from.0 ≡ 0) × (result.to.0 ≡ n) }
    {
        Span {
            from: Place(0),
            to: Place(n),
        }
    }

    // How many octets the part has.
    pub fn len(self) -> usize
        requires { self.from.0 ≤ self.to.0 }
        ensures { result ≡ self.to.0 - self.from.0 }
    {
        self.to.0 - self.from.0
    }
}
