// The parts of an extended value before its characters: the charset, the language, and their quotes.
ghost use Rattle.std.specs.Prelude.{◌≡◌, [], ◌∷◌, ◌≤◌, length};
ghost use Rattle.extended.specs.Value.{is_language};
ghost use Rattle.extended.specs.Decoded.{bind, behind_folded, charset_part, behind_language};
ghost use Rattle.units.specs.Seen.{seen};
ghost use Rattle.decoding.specs.Sight.{sight};

use folding::fold;
use kinds::Place;
use units::{Reading, look};

// The place behind an octet that is folded to x.
fn past_octet(s: &[u8], k: Place, e: Place, how: Reading, x: u8) -> Option<Place>
    requires { e.0 ≤ length s.now }
    ensures { sight how s.now e.0 result ≡ behind_folded (x ∷ []) (seen how s.now e.0 k.0) }
{
    let (c, n) = look(s, k, e, how)?;
    if fold(c) == x { Some(n) } else { None }
}

// The place behind the charset and its quote.
pub fn past_charset(s: &[u8], k: Place, e: Place, how: Reading) -> Option<Place>
    requires { e.0 ≤ length s.now }
    ensures { sight how s.now e.0 result ≡ behind_folded charset_part (seen how s.now e.0 k.0) }
{
    let u = past_octet(s, k, e, how, b'u')?;
    let t = past_octet(s, u, e, how, b't')?;
    let f = past_octet(s, t, e, how, b'f')?;
    let hyphen = past_octet(s, f, e, how, b'-')?;
    let eight = past_octet(s, hyphen, e, how, b'8')?;
    past_octet(s, eight, e, how, b'\'')
}

// An octet of a language.
fn is_language(c: u8) -> bool
    ensures { result ≡ is_language c }
{
    (((b'A' <= c) & (c <= b'Z')) | ((b'a' <= c) & (c <= b'z')))
        | ((b'0' <= c) & (c <= b'9'))
        | (c == b'-')
}

// The place behind a language that begins at k, and its quote.
fn language_from(s: &[u8], k: Place, e: Place, how: Reading) -> Option<Place>
    requires { e.0 ≤ length s.now }
    ensures { sight how s.now e.0 result ≡ behind_language (seen how s.now e.0 k.0) }
{
    let mut at = k;
    while let Some((c, n)) = look(s, at, e, how) {
        if c == b'\'' {
            return Some(n);
        }
        if !is_language(c) {
            return None;
        }
        at = n;
    }
    None
}

// The place behind the language that begins where `from` tells, and its quote.
pub fn past_language(s: &[u8], from: Option<Place>, e: Place, how: Reading) -> Option<Place>
    requires { e.0 ≤ length s.now }
    ensures { sight how s.now e.0 result ≡ bind (sight how s.now e.0 from) behind_language }
{
    language_from(s, from?, e, how)
}
