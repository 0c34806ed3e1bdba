// The parts of a link, judged by the grammar. Each scan hands back the cursor behind what it passed, or, as its error, the place at
// which the header is malformed.
#![tactic(auto)]

pub mod param;
mod quoted;
pub mod target;
pub mod value;
