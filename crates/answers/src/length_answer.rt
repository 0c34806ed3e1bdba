// What an entry answers that fills an output buffer: how many octets it wrote.
ghost use Rattle.std.specs.Prelude.{◌≡◌};
ghost use Rattle.answers.specs.Length.{length_numbers};

use crate::{DONE, Refusal};

pub type LengthAnswer = Result<usize, Refusal>;

#[repr(C)]
#[derive(Clone, Copy)]
pub struct LengthNumbers {
    pub number: usize,
    pub length: usize,
}

impl From<LengthAnswer> for LengthNumbers {
    ghost from_gives = { λ answer r. r ≡ length_numbers answer };

    fn from(answer: LengthAnswer) -> LengthNumbers {
        match answer {
            Ok(n) => LengthNumbers {
                number: DONE,
                length: n,
            },
            Err(why) => LengthNumbers {
                number: why.into(),
                length: 0,
            },
        }
    }
}
