// Lists the links of the Link field value on standard input, without the LF that ends it, if there, resolved on the base that is the
// program's argument.
#![tactic(auto)]

ghost use Rattle.io.specs.Counts.{IsPrefixLen as Within};

use std::env::{Env, FillError};

// Room for the longest field value, the LF behind it, and one octet more, which tells that there is too much.
const INPUT: usize = answers::LIMIT + 2;

// Room for the longest base, and one octet more.
const BASE: usize = answers::LIMIT + 1;

// Room for 256 links and 1,024 parameters.
const LINKS: usize = 256 * records::LINK_SLOTS;

const PARAMS: usize = 1024 * records::PARAM_SLOTS;

// Room for a line with the longest target and the longest context, or for one without them.
const LINE: usize = 2 * answers::LIMIT + 160;

// Puts the base at the start of the buffer, and answers its length. Unless there is one argument, the base is empty; one that doesn't fit
// fills the buffer, which tells that it is too long.
fn read_base<R: Env>(rt: &R, room: &mut [u8]) -> usize
    ensures { Within result room.new }
{
    match arguments::read_last(rt, 1, room) {
        Ok(n) => n,
        Err(FillError::TooLong) => room.len(),
        Err(FillError::NotPresent) => 0,
    }
}

fn main(rt: HostRuntime) {
    let mut input = [0u8; INPUT];
    let n = io::read_full(0, &mut input);
    let mut base = [0u8; BASE];
    let m = read_base(&rt, &mut base);
    let mut links = [0usize; LINKS];
    let mut params = [0usize; PARAMS];
    let mut target = [0u8; answers::LIMIT];
    let mut context = [0u8; answers::LIMIT];
    let mut line = [0u8; LINE];
    // What it answers is listed.
    let _ = resolve_listing::list(
        octets::editions::RFC8288,
        lines::without_final_lf(&input[..n]),
        &base[..m],
        &mut links,
        &mut params,
        &mut target,
        &mut context,
        &mut line,
    );
}
