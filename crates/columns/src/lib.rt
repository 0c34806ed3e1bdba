// A line by value: a label and columns of numbers, parted by HTAB and ended by LF. Nothing is written out here.
#![tactic(auto)]

ghost use Rattle.std.specs.Prelude.{◌+◌, ◌*◌, ◌≤◌, ◌∷◌, length};
ghost use Rattle.columns.specs.Decimal.{decimal, DecimalHolds};
ghost use Rattle.columns.specs.LineHolds.{Grown, LineHolds};
ghost use Rattle.columns.specs.Line.{tab, line};

// Room for a label of 7 octets, 7 numbers of 20 digits, each behind its HTAB, and LF.
#[derive(Clone, Copy)]
pub struct Line {
    pub octets: [u8; 160],
    pub len: usize,
}

impl Line {
    fn with_octets(self, s: &[u8]) -> Line
        requires { self.len + length s.now ≤ 160 }
        ensures { Grown self s.now result }
    {
        let mut octets = self.octets;
        let len = self.len + s.len();
        octets[self.len..len].copy_from_slice(s);
        Line { octets, len }
    }

    // One more column.
    fn with_number(self, n: usize) -> Line
        requires { self.len + 21 ≤ 160 }
        ensures grown { Grown self (tab ∷ decimal n) result }
        ensures len_bound { result.len ≤ self.len + 21 }
    {
        let mut digits = [0u8; 20];
        let k = io::decimal(n as u64, &mut digits);
        self.with_octets(b"\t").with_octets(&digits[..k])
    }
}

// A label, a number, and the rest of the numbers.
pub fn line_of(label: &[u8], first: usize, rest: &[usize]) -> Line
    requires { length label.now + 21 * (1 + length rest.now) + 1 ≤ 160 }
    ensures { LineHolds result (line label.now (first ∷ rest.now)) }
{
    let empty = Line {
        octets: [0u8; 160],
        len: 0,
    };
    let mut l = empty.with_octets(label).with_number(first);
    for n in rest {
        l = l.with_number(*n);
    }
    l.with_octets(b"\n")
}

// Digits read back as their number, and have no zero in front.
pub fn decimal_holds()
    ensures { DecimalHolds }
{}
