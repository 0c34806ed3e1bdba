// The first pass over a header: judges it by the grammar, octet by octet, counts its links and kept parameters, and notes their records as
// far as there is room for notes. Where the header is malformed, the answer is the place, as an error.
#![tactic(auto)]

pub mod header;
mod link;
