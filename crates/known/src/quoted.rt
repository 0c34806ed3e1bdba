// The inside of a quoted string that is known to be derived.
ghost use Rattle.grammar.specs.Grammar.{At, Inside};
ghost use Rattle.known.specs.Known.{KnownQuoted};

use cursor::Cursor;

// The closing quote: the first that no backslash stands before.
pub fn inside_end(s: &[u8], from: Cursor) -> Cursor
    requires { KnownQuoted s.now from.at.0 }
    ensures { Inside s.now from.at.0 result.at.0 × At s.now result.at.0 34 }
{
    let mut c = from;
    // A turn passes one octet, or a backslash and the octet behind it, so no `for` fits.
    loop {
        if c.sees(s, b'"') {
            return c;
        }
        if c.sees(s, b'\\') {
            c = c.past_octet(s).past_octet(s);
            continue;
        }
        c = c.past_octet(s);
    }
}
