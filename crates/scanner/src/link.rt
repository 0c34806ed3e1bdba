// A link, behind its `<`.
ghost use Rattle.std.specs.Prelude.{◌≡◌, cond, ◌+◌, ◌^◌, ◌≤◌, ◌<◌, length};
ghost use Rattle.octets.specs.Editions.{further};
ghost use Rattle.scanner.specs.Linked.{ParamsScanned, LinkScanned};

use cursor::Cursor;
use kinds::{LinkNumber, ParamNumber, Place};
use names::Seen;
use notes::{note_link, note_param};
use octets::editions::Edition;
use records::{LinkRecord, ParamRecord};
use scan_parts::param::past_param;
use scan_parts::target::past_target;

// One more is kept, unless its name stood before.
fn counted(kept: usize, again: bool) -> usize
    requires { kept + 1 < 2 ^ 64 }
    ensures { result ≡ kept + cond again 0 1 }
{
    if again {
        return kept;
    }
    kept + 1
}

// The parameters behind a link's `>`, up to a comma or the end. Those kept are noted, from number m on. The answer is the cursor behind
// them, at the comma or the end, and how many of them are kept; or the place at which the header is malformed.
fn past_params(
    edition: Edition,
    s: &[u8],
    from: Cursor,
    notes: &mut [u16],
    m: ParamNumber,
) -> Result<(Cursor, usize), Place>
    requires { (from.at.0 ≤ length s.now) × (m.0 ≤ from.at.0) }
    ensures { ParamsScanned (further edition) s.now from.at.0 m.0 notes.old notes.new result }
{
    let mut c = from;
    let mut kept: usize = 0;
    let mut seen = Seen::none();
    loop {
        let i = c.past_blanks(s);
        if i.at.0 >= s.len() {
            return Ok((i, kept));
        }
        if i.sees(s, b',') {
            return Ok((i, kept));
        }
        if !i.sees(s, b';') {
            return Err(i.at);
        }
        let (parts, d) = past_param(edition, s, i.past_octet(s).past_blanks(s))?;
        let name = parts.name;
        let code = names::code(s, name);
        let again = seen.has(code);
        note_param(notes, m.plus(kept), ParamRecord { parts, code }, again);
        kept = counted(kept, again);
        seen = seen.with(code);
        c = d;
    }
}

// A link, from its target on, with its parameters: the cursor behind them, and how many of them are kept. It is noted as link number n,
// and its parameters from number m on.
pub fn past_link(
    edition: Edition,
    s: &[u8],
    from: Cursor,
    links: &mut [u16],
    n: LinkNumber,
    params: &mut [u16],
    m: ParamNumber,
) -> Result<(Cursor, usize), Place>
    requires { (from.at.0 ≤ length s.now) × (m.0 ≤ from.at.0) }
    ensures { LinkScanned (further edition) s.now from.at.0 n.0 m.0
        links.old links.new params.old params.new result }
{
    let c = past_target(s, from)?;
    let (d, count) = past_params(edition, s, c.past_octet(s), params, m)?;
    let target = from.span_to(c);
    let r = LinkRecord {
        target,
        first: m,
        count,
    };
    note_link(links, n, r);
    Ok((d, count))
}
