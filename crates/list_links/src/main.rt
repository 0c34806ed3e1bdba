// Lists the Link field value on standard input, without the LF that ends it, if there.
#![tactic(auto)]

// Room for the longest field value, the LF behind it, and one octet more, which tells that there is too much.
const INPUT: usize = answers::LIMIT + 2;

// Room for 256 links and 1,024 parameters.
const LINKS: usize = 256 * records::LINK_SLOTS;

const PARAMS: usize = 1024 * records::PARAM_SLOTS;

fn main() {
    let mut input = [0u8; INPUT];
    let n = io::read_full(0, &mut input);
    let mut links = [0usize; LINKS];
    let mut params = [0usize; PARAMS];
    // What it answers is listed.
    let _ = listing::list(
        octets::editions::RFC8288,
        lines::without_final_lf(&input[..n]),
        &mut links,
        &mut params,
    );
}
