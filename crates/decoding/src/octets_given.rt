// The octets that the characters of an extended value give: counted and judged as UTF-8, and written.
ghost use Rattle.std.specs.Prelude.{◌≡◌, [], ◌+◌, ◌≤◌, length};
ghost use Rattle.std.proofs.Math.Option.{some};
ghost use Rattle.kinds.specs.Put.{Put};
ghost use Rattle.extended.specs.Decoded.{given};
ghost use Rattle.sequences.specs.Awaited.{nothing};
ghost use Rattle.units.specs.Seen.{seen};
ghost use Rattle.decoding.specs.Measured.{measured, told, octets_given, IsGiven};

use kinds::{OutPlace, Place};
use sequences::Awaited;
use units::{Given, Reading, is_attribute, unit};

// Behind the last octet the count stands if nothing is awaited.
fn finished(awaited: Awaited, n: usize) -> Option<usize>
    ensures { told result ≡ measured n awaited (some []) }
{
    if awaited.count == 0 { Some(n) } else { None }
}

// Counts the octets given from `from` on, if each is given and they are UTF-8. Most are attribute characters, which need no look through
// backslashes.
pub fn measure(s: &[u8], from: Place, e: Place, how: Reading) -> Option<usize>
    requires { e.0 ≤ length s.now }
    ensures { told result ≡ measured 0 nothing (given (seen how s.now e.0 from.0)) }
{
    let mut awaited = Awaited::nothing();
    let mut n = 0;
    let mut k = from;
    while k.0 < e.0 {
        let at = k.0;
        let c = s[at];
        if is_attribute(c) {
            awaited = awaited.behind(c);
            n += 1;
            k = k.next();
            continue;
        }
        let given = unit(s, k, e, how);
        match given {
            Given::Done => return finished(awaited, n),
            Given::Wrong => return None,
            Given::Gives(x, m) => {
                awaited = awaited.behind(x);
                n += 1;
                k = m;
            }
        }
    }
    finished(awaited, n)
}

// Writes the octets given into out from place `at` on, and answers the place behind them. They are known to be given.
pub fn put_given(
    s: &[u8],
    from: Place,
    e: Place,
    how: Reading,
    out: &mut [u8],
    at: OutPlace,
) -> OutPlace
    requires { (e.0 ≤ length s.now)
        × IsGiven (given (seen how s.now e.0 from.0))
        × (at.0 + length (octets_given (given (seen how s.now e.0 from.0))) ≤ length out.old) }
    ensures { Put out.old out.new at.0 result.0
        (octets_given (given (seen how s.now e.0 from.0))) }
{
    let mut to = at;
    let mut k = from;
    while k.0 < e.0 {
        let j = k.0;
        let c = s[j];
        let i = to.0;
        if is_attribute(c) {
            out[i] = c;
            to = to.next();
            k = k.next();
            continue;
        }
        let given = unit(s, k, e, how);
        match given {
            Given::Done => return to,
            Given::Wrong => return to,
            Given::Gives(x, m) => {
                out[i] = x;
                to = to.next();
                k = m;
            }
        }
    }
    to
}
