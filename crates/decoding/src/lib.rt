// Extended values decoded in place: judged and measured first, and then written. How a value is read, with its backslashes or without
// them, is asked for.
#![tactic(auto)]

pub mod fronts;
pub mod octets_given;

ghost use Rattle.std.specs.Prelude.{◌≤◌, length};
ghost use Rattle.decoding.specs.Judged.{IsJudged};

use crate::fronts::{past_charset, past_language};
use crate::octets_given::measure;
use kinds::{Place, Span};
use units::Reading;

// Where the characters of a right value begin, and how many octets they give.
#[derive(Clone, Copy)]
pub struct Chars {
    pub from: Place,
    pub count: usize,
}

// Judges the part of the text as an extended value: where it is right, its characters are told.
pub fn judge(s: &[u8], part: Span, how: Reading) -> Option<Chars>
    requires { part.to.0 ≤ length s.now }
    ensures { IsJudged how s.now part.to.0 part.from.0 result }
{
    let e = part.to;
    let language = past_charset(s, part.from, e, how);
    let chars = past_language(s, language, e, how)?;
    let count = measure(s, chars, e, how)?;
    Some(Chars {
        from: chars,
        count: count,
    })
}
