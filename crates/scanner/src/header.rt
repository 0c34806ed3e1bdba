// A header: items parted by commas, each empty or one link.
ghost use Rattle.octets.specs.Editions.{further};
ghost use Rattle.scanner.specs.Linked.{HeaderScanned};

use crate::link::past_link;
use cursor::Cursor;
use kinds::{Counts, Place};
use octets::editions::Edition;

// Judges the whole header, and counts and notes: how many links and kept parameters it has, or the place at which it is malformed.
pub fn scan(
    edition: Edition,
    s: &[u8],
    links: &mut [u16],
    params: &mut [u16],
) -> Result<Counts, Place>
    ensures { HeaderScanned (further edition) s.now
        links.old links.new params.old params.new result }
{
    let mut c = Cursor::start();
    let mut counts = Counts {
        links: 0,
        params: 0,
    };
    loop {
        let i = c.past_blanks(s);
        if i.at.0 >= s.len() {
            return Ok(counts);
        }
        if i.sees(s, b',') {
            c = i.past_octet(s);
            continue;
        }
        if !i.sees(s, b'<') {
            return Err(i.at);
        }
        let n = counts.next_link();
        let m = counts.next_param();
        let (d, kept) = past_link(edition, s, i.past_octet(s), links, n, params, m)?;
        counts.links += 1;
        counts.params += kept;
        if d.at.0 >= s.len() {
            return Ok(counts);
        }
        c = d.past_octet(s);
    }
}
