// A value that is known to be derived, behind `=` and blanks.
ghost use Rattle.octets.specs.Editions.{further};
ghost use Rattle.scan_parts.specs.Parsed.{ParsedValue};
ghost use Rattle.known.specs.Known.{KnownValue};

use crate::quoted::inside_end;
use cursor::Cursor;
use kinds::Span;
use octets::editions::Edition;
use scan_parts::value::bare_form;

// A value's span and form, and the cursor behind it.
#[derive(Clone, Copy)]
pub struct ValueRead {
    pub span: Span,
    pub form: usize,
    pub next: Cursor,
}

pub fn read_value(edition: Edition, s: &[u8], from: Cursor) -> ValueRead
    requires { KnownValue (further edition) s.now from.at.0 }
    ensures { ParsedValue (further edition) s.now from.at.0 result.span.from.0 result.span.to.0 result.form result.next.at.0 }
{
    if from.sees(s, b'"') {
        let start = from.past_octet(s);
        let q = inside_end(s, start);
        return ValueRead {
            span: start.span_to(q),
            form: 2,
            next: q.past_octet(s),
        };
    }
    let k = from.past_token(s);
    let e = k.past_further(s, edition);
    ValueRead {
        span: from.span_to(e),
        form: bare_form(k, e),
        next: e,
    }
}
