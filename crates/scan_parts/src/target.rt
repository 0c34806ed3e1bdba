// A target, up to its `>`: a reference.
ghost use Rattle.std.specs.Prelude.{◌≤◌, length};
ghost use Rattle.octets.specs.Sets.{is_hex};
ghost use Rattle.scan_parts.specs.Scanned.{OneScanned, TripleScanned, TargetScanned, ReferenceScanned};

use cursor::Cursor;
use kinds::Place;
use octet_classes::Set;
use reference_octet::accepts;
use reference_scan::judge;

// One hex digit.
fn past_hex(s: &[u8], c: Cursor) -> Result<Cursor, Place>
    ensures { OneScanned is_hex s.now c.at.0 result }
{
    if !c.sees_in(s, Set::Hex) {
        return Err(c.at);
    }
    Ok(c.past_octet(s))
}

// Two hex digits, behind `%`.
fn past_triple(s: &[u8], c: Cursor) -> Result<Cursor, Place>
    ensures { TripleScanned s.now c.at.0 result }
{
    let d = past_hex(s, c)?;
    past_hex(s, d)
}

// Octets and triples of a target, up to its `>`.
fn past_units(s: &[u8], from: Cursor) -> Result<Cursor, Place>
    requires { from.at.0 ≤ length s.now }
    ensures { TargetScanned s.now from.at.0 result }
{
    let mut c = from.past_target(s);
    while !c.sees(s, b'>') {
        if !c.sees(s, b'%') {
            return Err(c.at);
        }
        let d = past_triple(s, c.past_octet(s))?;
        c = d.past_target(s);
    }
    Ok(c)
}

// A target, judged as a reference. What the judging takes are a target's octets and triples, so one pass is enough where it is a
// reference. One that is none is passed again, for its `>`, behind which its start is told, or for what stands where no octet of it may.
pub fn past_target(s: &[u8], from: Cursor) -> Result<Cursor, Place>
    requires { from.at.0 ≤ length s.now }
    ensures { ReferenceScanned s.now from.at.0 result }
{
    let judged = judge(s, from, 0);
    let c = judged.at;
    if accepts(judged.state) && c.sees(s, b'>') {
        return Ok(c);
    }
    past_units(s, from)?;
    Err(from.at)
}
