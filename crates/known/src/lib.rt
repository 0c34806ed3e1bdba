// The second pass's scans. The header is known to be derived, so that what has been judged already is only measured: where a target,
// a quoted string, a value and a parameter end.
#![tactic(auto)]

pub mod param;
mod quoted;
pub mod target;
mod value;
