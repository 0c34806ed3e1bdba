// What a feed answers, and what a feeding remembers between calls.
ghost use Rattle.std.specs.Prelude.{◌≡◌};
ghost use Rattle.answers.specs.Feed.{feed_numbers};

use crate::read_answer::ReadError;
use crate::{DONE, MALFORMED};
use kinds::Place;

// The number of the edition asked for; the phase of reading behind the octets gathered; how many octets counted, at most one past the
// limit; within it, their place; and, where they end in a target, its start and the state of its judging as a reference. A caller in C
// holds it from call to call, so that its numbers may be any.
#[repr(C)]
#[derive(Clone, Copy)]
pub struct Feeding {
    pub edition: usize,
    pub phase: usize,
    pub total: usize,
    pub place: usize,
    pub target: usize,
    pub judged: usize,
}

// Nothing is wrong with the octets so far, something is and they have this place, or why the feed is refused otherwise; and in each
// case the next state.
#[derive(Clone, Copy)]
pub struct FeedAnswer {
    pub told: Result<(), ReadError>,
    pub next: Feeding,
}

#[repr(C)]
#[derive(Clone, Copy)]
pub struct FeedNumbers {
    pub number: usize,
    pub place: usize,
    pub next: Feeding,
}

impl From<FeedAnswer> for FeedNumbers {
    ghost from_gives = { λ answer r. r ≡ feed_numbers answer };

    fn from(answer: FeedAnswer) -> FeedNumbers {
        let next = answer.next;
        match answer.told {
            Ok(()) => FeedNumbers {
                number: DONE,
                place: 0,
                next,
            },
            Err(ReadError::Malformed(place)) => FeedNumbers {
                number: MALFORMED,
                place: place.0,
                next,
            },
            Err(ReadError::Refused(why)) => FeedNumbers {
                number: why.into(),
                place: 0,
                next,
            },
        }
    }
}
