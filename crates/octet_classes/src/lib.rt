// The sets of octets that the grammar names, tested by one table: a class number for each octet, with a bit for each set. The table is a
// static, since a constant that is read in a loop is built anew at each look.
#![tactic(auto)]

ghost use Rattle.std.specs.Prelude.{◌≡◌};
ghost use Rattle.octets.specs.Editions.{further};
ghost use Rattle.octet_classes.specs.Sets.{is_in};
ghost use Rattle.octet_classes.specs.Classes.{Classes};

use crate::numbers::CLASSES;
use octets::editions::Edition;

mod numbers;

// The sets. Ptoken, what the older edition allows in a value without quotes, is made of two of the others; each other one has a bit.
#[derive(Clone, Copy)]
pub enum Set {
    Token,
    Plain,
    Escapable,
    Target,
    Hex,
    Older,
    Blank,
    Ptoken,
}

// The table behind another number: of one that is a static by itself the compiler tells blanks by two comparisons, each with a branch, and
// in a run of both kinds of them these are guessed wrong at every second octet.
struct Numbered {
    before: u64,
    numbers: [u8; 256],
}

static TABLE: Numbered = Numbered {
    before: 0,
    numbers: CLASSES,
};

// The table.
pub fn table() -> &'static [u8; 256]
    ensures { Classes result.now }
{
    &TABLE.numbers
}

// Whether the octet is in the set.
pub fn is_in(set: Set, c: u8) -> bool
    ensures { result ≡ is_in set c }
{
    let class = table()[c as usize];
    match set {
        Set::Token => class % 2 == 1,
        Set::Plain => class / 2 % 2 == 1,
        Set::Escapable => class / 4 % 2 == 1,
        Set::Target => class / 8 % 2 == 1,
        Set::Hex => class / 16 % 2 == 1,
        Set::Older => class / 32 % 2 == 1,
        Set::Blank => class / 64 % 2 == 1,
        Set::Ptoken => (class % 2 == 1) | (class / 32 % 2 == 1),
    }
}

// Whether a value without quotes may hold the octet though a token may not.
pub fn is_further(edition: Edition, c: u8) -> bool
    ensures { result ≡ further edition c }
{
    match edition {
        Edition::Rfc8288 => false,
        Edition::Rfc5988 => is_in(Set::Older, c),
    }
}
