// The value of a parameter, behind `=` and blanks.
ghost use Rattle.std.specs.Prelude.{cond, ◌≡◌, eqb};
ghost use Rattle.octets.specs.Editions.{further};
ghost use Rattle.scan_parts.specs.Stands.{Clear};
ghost use Rattle.scan_parts.specs.Scanned.{ValueScanned};

use crate::quoted::past_inside;
use cursor::Cursor;
use kinds::{Place, Span};
use octets::editions::Edition;
use records::ParamParts;

// The form of a value without quotes whose token octets end at k, and all of whose octets end at e.
pub fn bare_form(k: Cursor, e: Cursor) -> usize
    ensures { result ≡ cond (eqb k.at.0 e.at.0) 1 3 }
{
    if k.at.0 == e.at.0 { 1 } else { 3 }
}

// With its value, the parameter of this name is whole: its parts, and the cursor behind it.
pub fn past_value(
    edition: Edition,
    s: &[u8],
    name: Span,
    from: Cursor,
) -> Result<(ParamParts, Cursor), Place>
    requires { Clear s.now from.at.0 }
    ensures { ValueScanned (further edition) s.now name from.at.0 result }
{
    if from.sees(s, b'"') {
        let start = from.past_octet(s);
        let q = past_inside(s, start)?;
        let value = start.span_to(q);
        let parts = ParamParts {
            name,
            value,
            form: 2,
        };
        return Ok((parts, q.past_octet(s)));
    }
    let k = from.past_token(s);
    let e = k.past_further(s, edition);
    if e.at.0 == from.at.0 {
        return Err(from.at);
    }
    let value = from.span_to(e);
    let form = bare_form(k, e);
    Ok((ParamParts { name, value, form }, e))
}
