// The records of a link's kept parameters.
ghost use Rattle.std.specs.Prelude.{◌≡◌, false, ◌<◌};
ghost use Rattle.grammar.specs.Records.{param_room_of};
ghost use Rattle.octets.specs.Editions.{further};
ghost use Rattle.filling.specs.Filling.{KeptOnce, BeforeParams, ParamsFilled};

use cursor::Cursor;
use kinds::ParamNumber;
use known::param::read_param;
use names::Seen;
use octets::editions::Edition;
use records::ParamRecord;

// The cursor behind a link's parameters, and the number of the next parameter.
#[derive(Clone, Copy)]
pub struct Behind {
    pub cursor: Cursor,
    pub next: ParamNumber,
}

// Writes the record at number m, unless its name stood before, and answers the next number.
fn keep(params: &mut [usize], m: ParamNumber, r: ParamRecord, again: bool) -> ParamNumber
    requires { again ≡ false → m.0 < param_room_of params.old }
    ensures { KeptOnce again r m.0 result.0 params.old params.new }
{
    if again {
        return m;
    }
    records::put_param(params, m, r);
    m.next()
}

// Writes the records of a link's kept parameters, from number m on.
pub fn fill_params(
    edition: Edition,
    s: &[u8],
    from: Cursor,
    params: &mut [usize],
    m: ParamNumber,
) -> Behind
    requires { BeforeParams (further edition) s.now params.old from.at.0 m.0 }
    ensures { ParamsFilled (further edition) s.now from.at.0 result.cursor.at.0 m.0 result.next.0
        params.old params.new }
{
    let mut c = from;
    let mut n = m;
    let mut seen = Seen::none();
    // The cursor moves on by what each part takes, so no `for` fits.
    loop {
        let i = c.past_blanks(s);
        if !i.sees(s, b';') {
            return Behind { cursor: i, next: n };
        }
        let p = read_param(edition, s, i.past_octet(s).past_blanks(s));
        let parts = p.parts;
        let name = parts.name;
        let code = names::code(s, name);
        let r = ParamRecord { parts, code };
        n = keep(params, n, r, seen.has(code));
        seen = seen.with(code);
        c = p.next;
    }
}
