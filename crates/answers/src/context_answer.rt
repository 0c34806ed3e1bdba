// Where a link's context lies.
ghost use Rattle.std.specs.Prelude.{◌≡◌};
ghost use Rattle.answers.specs.Context.{context_out, context_numbers};

use crate::{DONE, Refusal};
use kinds::Span;

// The number of the text as the source of a context, and of the base.
const OF_TEXT: usize = 1;

const OF_BASE: usize = 2;

// A part of the text, or the whole base.
#[derive(Clone, Copy)]
pub enum Context {
    Anchored(Span),
    Base,
}

pub type ContextAnswer = Result<Context, Refusal>;

#[repr(C)]
#[derive(Clone, Copy)]
pub struct ContextNumbers {
    pub number: usize,
    pub source: usize,
    pub start: usize,
    pub end: usize,
}

impl ContextNumbers {
    // With the length of the base.
    pub fn of(answer: ContextAnswer, base_len: usize) -> ContextNumbers
        ensures { result ≡ context_numbers (context_out base_len answer) }
    {
        match answer {
            Ok(Context::Anchored(span)) => ContextNumbers {
                number: DONE,
                source: OF_TEXT,
                start: span.from.0,
                end: span.to.0,
            },
            Ok(Context::Base) => ContextNumbers {
                number: DONE,
                source: OF_BASE,
                start: 0,
                end: base_len,
            },
            Err(why) => ContextNumbers {
                number: why.into(),
                source: 0,
                start: 0,
                end: 0,
            },
        }
    }
}
