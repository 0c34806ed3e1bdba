// What a search answers.
ghost use Rattle.std.specs.Prelude.{◌≡◌};
ghost use Rattle.answers.specs.Search.{search_numbers};

use crate::{DONE, Refusal};
use kinds::LinkNumber;

pub type SearchAnswer = Result<LinkNumber, Refusal>;

#[repr(C)]
#[derive(Clone, Copy)]
pub struct SearchNumbers {
    pub number: usize,
    pub link: usize,
}

impl From<SearchAnswer> for SearchNumbers {
    ghost from_gives = { λ answer r. r ≡ search_numbers answer };

    fn from(answer: SearchAnswer) -> SearchNumbers {
        match answer {
            Ok(link) => SearchNumbers {
                number: DONE,
                link: link.0,
            },
            Err(why) => SearchNumbers {
                number: why.into(),
                link: 0,
            },
        }
    }
}
