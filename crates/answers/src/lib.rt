// What entries answer: a result for each kind of answer, whose error tells why the entry refuses, and a struct of the numbers that each
// is told by. The entries for C and the programs take their numbers from here alone.
#![tactic(auto)]

ghost use Rattle.std.specs.Prelude.{◌≡◌};
ghost use Rattle.answers.specs.Refusal.{refusal_number};

pub mod context_answer;
pub mod feed_answer;
pub mod length_answer;
pub mod read_answer;
pub mod search_answer;
pub mod walk_answer;

// The most octets of a header, a text, an extended value, a written form, a reference, a base or a result.
pub const LIMIT: usize = 8192;

// The number of an answer that refuses nothing.
const DONE: usize = 0;

// The number of a malformed header, whose answer tells a place too.
const MALFORMED: usize = 2;

// Why an entry refuses, where the answer tells nothing but the number.
#[derive(Clone, Copy)]
pub enum Refusal {
    TooLong,
    NoLinkRoom,
    NoParamRoom,
    BadTable,
    NoRelation,
    NoOutputRoom,
    NoSuchLink,
    NotFound,
    UnknownEdition,
    BadExtended,
    BadBase,
    BadReference,
    OutOfRange,
    BadCatalogue,
}

impl From<Refusal> for usize {
    ghost from_gives = { λ why n. n ≡ refusal_number why };

    fn from(why: Refusal) -> usize {
        match why {
            Refusal::TooLong => 1,
            Refusal::NoLinkRoom => 3,
            Refusal::NoParamRoom => 4,
            Refusal::BadTable => 5,
            Refusal::NoRelation => 6,
            Refusal::NoOutputRoom => 7,
            Refusal::NoSuchLink => 8,
            Refusal::NotFound => 9,
            Refusal::UnknownEdition => 10,
            Refusal::BadExtended => 11,
            Refusal::BadBase => 12,
            Refusal::BadReference => 13,
            Refusal::OutOfRange => 14,
            Refusal::BadCatalogue => 15,
        }
    }
}
