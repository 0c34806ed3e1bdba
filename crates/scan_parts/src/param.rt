// A parameter, behind `;` and blanks.
ghost use Rattle.octets.specs.Editions.{further};
ghost use Rattle.scan_parts.specs.Stands.{Clear};
ghost use Rattle.scan_parts.specs.Scanned.{ParamScanned};

use crate::value::past_value;
use cursor::Cursor;
use kinds::Place;
use octets::editions::Edition;
use records::ParamParts;

// A parameter's parts, and the cursor behind it.
pub fn past_param(edition: Edition, s: &[u8], from: Cursor) -> Result<(ParamParts, Cursor), Place>
    requires { Clear s.now from.at.0 }
    ensures { ParamScanned (further edition) s.now from.at.0 result }
{
    let e = from.past_token(s);
    if e.at.0 == from.at.0 {
        return Err(from.at);
    }
    let name = from.span_to(e);
    let k = e.past_blanks(s);
    if k.sees(s, b'=') {
        return past_value(edition, s, name, k.past_octet(s).past_blanks(s));
    }
    let value = e.span_to(e);
    let parts = ParamParts {
        name,
        value,
        form: 0,
    };
    Ok((parts, k))
}
