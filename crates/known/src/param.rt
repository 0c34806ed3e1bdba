// A parameter that is known to be derived, behind `;` and blanks.
ghost use Rattle.octets.specs.Editions.{further};
ghost use Rattle.records.specs.Slots.{to_param};
ghost use Rattle.scan_parts.specs.Parsed.{Parsed};
ghost use Rattle.known.specs.Known.{KnownParam};

use crate::value::read_value;
use cursor::Cursor;
use octets::editions::Edition;
use records::ParamParts;

// A parameter's parts, and the cursor behind it.
#[derive(Clone, Copy)]
pub struct ParamRead {
    pub parts: ParamParts,
    pub next: Cursor,
}

pub fn read_param(edition: Edition, s: &[u8], from: Cursor) -> ParamRead
    requires { KnownParam (further edition) s.now from.at.0 }
    ensures { Parsed (further edition) s.now from.at.0 (to_param result.parts) result.next.at.0 }
{
    let e = from.past_token(s);
    let name = from.span_to(e);
    let k = e.past_blanks(s);
    if k.sees(s, b'=') {
        let v = read_value(edition, s, k.past_octet(s).past_blanks(s));
        let value = v.span;
        let next = v.next;
        return ParamRead {
            parts: ParamParts {
                name,
                value,
                form: v.form,
            },
            next,
        };
    }
    let value = e.span_to(e);
    ParamRead {
        parts: ParamParts {
            name,
            value,
            form: 0,
        },
        next: k,
    }
}
