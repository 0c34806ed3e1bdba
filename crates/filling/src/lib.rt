// The second pass: fills in the records of a header that has a reading, in tables that have room for it. Nothing is judged again.
#![tactic(auto)]

ghost use Rattle.octets.specs.Editions.{further};
ghost use Rattle.filling.specs.Filling.{ReadingFits, TablesFilled};

use crate::link::fill_link;
use cursor::Cursor;
use kinds::{LinkNumber, ParamNumber};
use octets::editions::Edition;

mod link;
mod params;

// Writes the records of all links. Between two of them stand blanks and commas alone.
pub fn fill(edition: Edition, s: &[u8], links: &mut [usize], params: &mut [usize])
    requires { ReadingFits (further edition) s.now links.old params.old }
    ensures { TablesFilled (further edition) s.now
        links.old links.new params.old params.new }
{
    let mut c = Cursor::start();
    let mut n = LinkNumber::first();
    let mut m = ParamNumber::first();
    // The cursor moves on by what each part takes, so no `for` fits.
    loop {
        let i = c.past_blanks(s);
        if i.at.0 >= s.len() {
            return;
        }
        if i.sees(s, b',') {
            c = i.past_octet(s);
            continue;
        }
        let behind = fill_link(edition, s, i.past_octet(s), links, n, params, m);
        n = n.next();
        m = behind.next;
        let d = behind.cursor;
        if d.at.0 >= s.len() {
            return;
        }
        c = d.past_octet(s);
    }
}
