// The inside of a quoted string, up to its closing quote.
ghost use Rattle.std.specs.Prelude.{◌≤◌, length};
ghost use Rattle.scan_parts.specs.Scanned.{InsideScanned};

use cursor::Cursor;
use kinds::Place;
use octet_classes::Set;

pub fn past_inside(s: &[u8], from: Cursor) -> Result<Cursor, Place>
    requires { from.at.0 ≤ length s.now }
    ensures { InsideScanned s.now from.at.0 result }
{
    let mut c = from.past_plain(s);
    while !c.sees(s, b'"') {
        if !c.sees(s, b'\\') {
            return Err(c.at);
        }
        let d = c.past_octet(s);
        if !d.sees_in(s, Set::Escapable) {
            return Err(d.at);
        }
        c = d.past_octet(s).past_plain(s);
    }
    Ok(c)
}
