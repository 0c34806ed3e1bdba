// UTF-8 judged one octet at a time.
#![tactic(auto)]

ghost use Rattle.std.specs.Prelude.{◌≡◌, cond};
ghost use Rattle.sequences.specs.Ones.{leading_ones};
ghost use Rattle.sequences.specs.Awaited.{tails, nothing, impossible, behind_first, behind};
ghost use Rattle.sequences.specs.Laws.{AwaitedExact, OnesTell};

// How many octets of a sequence are still awaited, and from where to where the next may lie.
#[derive(Clone, Copy)]
pub struct Awaited {
    pub count: u8,
    pub low: u8,
    pub high: u8,
}

// The ones that an octet begins with, which are the zeros that its complement begins with. In a sequence's first octet their count tells
// the sequence's length (law `OnesTell`).
pub fn leading_ones(first: u8) -> u32
    ensures { result ≡ leading_ones first }
{
    u8::leading_zeros(!first)
}

fn pick(test: bool, yes: u8, no: u8) -> u8
    ensures { result ≡ cond test yes no }
{
    if test {
        return yes;
    }
    no
}

// Behind a sequence's first octet. The second one's bounds keep off overlong forms, surrogates and what lies over 10FFFF hex.
fn behind_first(c: u8) -> Awaited
    ensures { result ≡ behind_first c }
{
    let n = leading_ones(c);
    if n == 0 {
        return Awaited::nothing();
    }
    if (n == 2) & (c >= 0xC2) {
        return Awaited::tails(1);
    }
    if n == 3 {
        let low = pick(c == 0xE0, 0xA0, 0x80);
        let high = pick(c == 0xED, 0x9F, 0xBF);
        return Awaited {
            count: 2,
            low: low,
            high: high,
        };
    }
    if (n == 4) & (c <= 0xF4) {
        let low = pick(c == 0xF0, 0x90, 0x80);
        let high = pick(c == 0xF4, 0x8F, 0xBF);
        return Awaited {
            count: 3,
            low: low,
            high: high,
        };
    }
    Awaited::impossible()
}

impl Awaited {
    // n octets of a sequence's tail.
    fn tails(n: u8) -> Awaited
        ensures { result ≡ tails n }
    {
        Awaited {
            count: n,
            low: 0x80,
            high: 0xBF,
        }
    }

    // A sequence may begin.
    pub fn nothing() -> Awaited
        ensures { result ≡ nothing }
    {
        Awaited::tails(0)
    }

    // No text goes on from here. With an Option in its place, answered by `behind`, judging a value took more time: tried and slower.
    fn impossible() -> Awaited
        ensures { result ≡ impossible }
    {
        Awaited {
            count: 1,
            low: 1,
            high: 0,
        }
    }

    // What is awaited behind the octet c.
    pub fn behind(self, c: u8) -> Awaited
        ensures { result ≡ behind self c }
    {
        if self.count == 0 {
            return behind_first(c);
        }
        if (self.low <= c) & (c <= self.high) {
            return Awaited::tails(self.count - 1);
        }
        Awaited::impossible()
    }
}

// A text is well formed just if nothing is awaited behind it.
pub fn awaited_exact()
    ensures { AwaitedExact }
{}

// The ones that a sequence's first octet begins with tell how many octets it has: as many, and one where there are none.
pub fn ones_tell()
    ensures { OnesTell }
{}
