// What reading answers.
ghost use Rattle.std.specs.Prelude.{◌≡◌};
ghost use Rattle.answers.specs.Read.{read_numbers};
ghost use Rattle.answers.specs.declared.read_answer.ReadError.TheVariants.{Refused};

use crate::{DONE, MALFORMED, Refusal};
use kinds::{Counts, Place};

// The place of a malformed header, or why the header is refused otherwise.
#[derive(Clone, Copy)]
pub enum ReadError {
    Malformed(Place),
    Refused(Refusal),
}

impl From<Refusal> for ReadError {
    ghost from_gives = { λ why e. e ≡ Refused why };

    fn from(why: Refusal) -> ReadError {
        ReadError::Refused(why)
    }
}

// Counts of links and kept parameters.
pub type ReadAnswer = Result<Counts, ReadError>;

#[repr(C)]
#[derive(Clone, Copy)]
pub struct ReadNumbers {
    pub number: usize,
    pub place: usize,
    pub links: usize,
    pub params: usize,
}

impl From<ReadAnswer> for ReadNumbers {
    ghost from_gives = { λ answer r. r ≡ read_numbers answer };

    fn from(answer: ReadAnswer) -> ReadNumbers {
        match answer {
            Ok(counts) => ReadNumbers {
                number: DONE,
                place: 0,
                links: counts.links,
                params: counts.params,
            },
            Err(ReadError::Malformed(place)) => ReadNumbers {
                number: MALFORMED,
                place: place.0,
                links: 0,
                params: 0,
            },
            Err(ReadError::Refused(why)) => ReadNumbers {
                number: why.into(),
                place: 0,
                links: 0,
                params: 0,
            },
        }
    }
}
