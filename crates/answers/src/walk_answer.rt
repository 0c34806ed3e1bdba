// What a walk answers.
ghost use Rattle.std.specs.Prelude.{◌≡◌};
ghost use Rattle.answers.specs.Walk.{end_of, walk_numbers};

use crate::{DONE, Refusal};
use kinds::PackNumber;

// It arrived, or stopped for want of a link, of a target that can be resolved, or of a pack.
#[derive(Clone, Copy)]
pub enum End {
    Arrived,
    NoLink,
    NoTarget,
    NoPack,
}

impl From<End> for usize {
    ghost from_gives = { λ end n. n ≡ end_of end };

    fn from(end: End) -> usize {
        match end {
            End::Arrived => 1,
            End::NoLink => 2,
            End::NoTarget => 3,
            End::NoPack => 4,
        }
    }
}

// How it ended, the last pack and the steps taken.
#[derive(Clone, Copy)]
pub struct Ended {
    pub end: End,
    pub pack: PackNumber,
    pub steps: usize,
}

pub type WalkAnswer = Result<Ended, Refusal>;

#[repr(C)]
#[derive(Clone, Copy)]
pub struct WalkNumbers {
    pub number: usize,
    pub end: usize,
    pub pack: usize,
    pub steps: usize,
}

impl From<WalkAnswer> for WalkNumbers {
    ghost from_gives = { λ answer r. r ≡ walk_numbers answer };

    fn from(answer: WalkAnswer) -> WalkNumbers {
        match answer {
            Ok(ended) => WalkNumbers {
                number: DONE,
                end: ended.end.into(),
                pack: ended.pack.0,
                steps: ended.steps,
            },
            Err(why) => WalkNumbers {
                number: why.into(),
                end: 0,
                pack: 0,
                steps: 0,
            },
        }
    }
}
