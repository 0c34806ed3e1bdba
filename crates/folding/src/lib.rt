// Comparison of texts with A to Z read as a to z (definitions: the crate `octets`).
#![tactic(auto)]

ghost use Rattle.std.specs.Prelude.{cond, ◌≡◌, eqb};
ghost use Rattle.octets.specs.Fold.{fold, same_folded, pairs_compared};

// A to Z become a to z, and no other octet changes.
pub fn fold(c: u8) -> u8
    ensures { result ≡ fold c }
{
    if (b'A' <= c) & (c <= b'Z') { c + 32 } else { c }
}

// Whether two octets are the same once folded: they are the same, or the same letter in either case. Most often the first, which
// spares the rest.
pub fn same_octet(c: u8, d: u8) -> bool
    ensures { result ≡ eqb (fold c) (fold d) }
{
    c == d || (c | 32 == d | 32) & (b'a' <= c | 32) & (c | 32 <= b'z')
}

// What comparing two texts tells: whether they are the same once folded, and how many pairs of octets were compared. Pairs are told either
// way, so an Option of them would say less.
#[derive(Clone, Copy)]
pub struct Compared {
    pub same: bool,
    pub pairs: usize,
}

// That for C: `same` is 1 or 0.
#[repr(C)]
#[derive(Clone, Copy)]
pub struct CompareNumbers {
    pub same: usize,
    pub pairs: usize,
}

impl From<Compared> for CompareNumbers {
    ghost from_gives = { λ told numbers. (numbers.same ≡ cond told.same 1 0) × (numbers.pairs ≡ told.pairs) };

    fn from(told: Compared) -> CompareNumbers {
        CompareNumbers {
            same: if told.same { 1 } else { 0 },
            pairs: told.pairs,
        }
    }
}

// Compares two texts: lengths first, and where these are equal pair by pair, as far as the first unequal pair.
pub fn compare(x: &[u8], y: &[u8]) -> Compared
    ensures same_value { result.same ≡ same_folded x.now y.now }
    ensures pairs_value { result.pairs ≡ pairs_compared x.now y.now }
{
    if x.len() != y.len() {
        return Compared {
            same: false,
            pairs: 0,
        };
    }
    for i in 0..x.len() {
        if !same_octet(x[i], y[i]) {
            let pairs = i + 1;
            return Compared { same: false, pairs };
        }
    }
    Compared {
        same: true,
        pairs: x.len(),
    }
}
