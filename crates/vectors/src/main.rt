// Lists the headers on standard input, one a line, in each edition, and headers at the edges of lengths and rooms. The name of a case
// stands before its listing, behind `#`.
#![tactic(auto)]

ghost use Rattle.std.specs.Prelude.{◌≡◌, ◌+◌, ◌<◌, ◌≤◌, length};
ghost use Rattle.outcomes.specs.Number.{limit};

use answers::LIMIT;
use lent::Table;
use octets::editions::{RFC5988, RFC8288};
use records::{LINK_SLOTS, PARAM_SLOTS};

mod ask;

// A header that is its own name, behind the number of its edition; if it is read, the table is asked too.
fn list_in(edition: usize, header: &[u8]) {
    io::write_all(1, b"# ");
    io::print_decimal(1, edition as u64);
    io::write_all(1, b" ");
    io::write_all(1, header);
    io::write_all(1, b"\n");
    let mut links = [0usize; 256 * LINK_SLOTS];
    let mut params = [0usize; 1024 * PARAM_SLOTS];
    if let Ok(counts) = listing::list(edition, header, &mut links, &mut params) {
        let t = Table {
            text: header,
            links: &links,
            params: &params,
            counts,
        };
        ask::all(edition, &t);
    }
}

// In one edition behind the other.
fn list_header(header: &[u8]) {
    list_in(RFC8288, header);
    list_in(RFC5988, header);
}

// The last line may have no end; behind an end there need be none.
fn list_lines(s: &[u8]) {
    let mut from = 0;
    for (i, c) in s.iter().enumerate() {
        if *c == b'\n' {
            list_header(&s[from..i]);
            from = i + 1;
        }
    }
    if from < s.len() {
        list_header(&s[from..]);
    }
}

// A header of the length that is lent: `<`, a run of `a`, and `>`. The answer is listed, and used no further.
fn list_long(header: &mut [u8])
    requires { 0 < length header.old }
{
    let n = header.len();
    io::write_all(1, b"# octets ");
    io::print_decimal(1, n as u64);
    io::write_all(1, b"\n");
    header[0] = b'<';
    header[n - 1] = b'>';
    let mut links = [0usize; LINK_SLOTS];
    let _ = listing::list(RFC8288, header, &mut links, &mut []);
}

fn run_of_a() -> [u8; LIMIT + 1]
    ensures { limit + 1 ≡ length result }
{
    [b'a'; LIMIT + 1]
}

fn list_length(n: usize)
    requires { (0 < n) × (n ≤ limit + 1) }
{
    let mut header = run_of_a();
    list_long(&mut header[..n]);
}

// The slots of two links, and of three parameters.
const LINKS: usize = 2 * LINK_SLOTS;

const PARAMS: usize = 3 * PARAM_SLOTS;

// A header of two links and three parameters, in as many slots, up to one less than another record has. The
// answer is listed, and used no further.
fn list_room(link_slots: usize, param_slots: usize)
    requires { (link_slots ≤ 11) × (param_slots ≤ 23) }
{
    io::write_all(1, b"# slots ");
    io::print_decimal(1, link_slots as u64);
    io::write_all(1, b" ");
    io::print_decimal(1, param_slots as u64);
    io::write_all(1, b"\n");
    let mut links = [0usize; LINKS + 3];
    let mut params = [0usize; PARAMS + 5];
    let _ = listing::list(
        RFC8288,
        b"<a>;x;y,<b>;z",
        &mut links[..link_slots],
        &mut params[..param_slots],
    );
}

fn main() {
    let mut input = io::large_buffer();
    let n = io::read_full(0, &mut input);
    list_lines(&input[..n]);
    list_length(LIMIT - 1);
    list_length(LIMIT);
    list_length(LIMIT + 1);
    list_room(LINKS, PARAMS);
    list_room(LINKS + 3, PARAMS + 5);
    list_room(LINKS - 1, PARAMS);
    list_room(LINKS, PARAMS - 1);
    list_room(LINKS - 1, PARAMS - 1);
    list_room(0, 0);
}
