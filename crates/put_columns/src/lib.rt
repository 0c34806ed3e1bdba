// Columns of a line, put into a buffer at a moving place: octets or a number, and the octet that ends them.
#![tactic(auto)]

ghost use Rattle.std.specs.Prelude.{◌+◌, ◌≤◌, [], ◌∷◌, ◌++◌, length};
ghost use Rattle.kinds.specs.Put.{Put};
ghost use Rattle.columns.specs.Decimal.{decimal};

use kinds::{OutPlace, Span};
use putting::part::put_part;
use putting::put;

// A column of octets.
pub fn put_column(s: &[u8], end: u8, line: &mut [u8], at: OutPlace) -> OutPlace
    requires { at.0 + length s.now + 1 ≤ length line.old }
    ensures { Put line.old line.new at.0 result.0 (s.now ++ (end ∷ [])) }
{
    let behind = put_part(s, Span::up_to(s.len()), line, at);
    put(line, behind, end)
}

// A column with a number's digits, 20 at most.
pub fn put_number(n: usize, end: u8, line: &mut [u8], at: OutPlace) -> OutPlace
    requires { at.0 + 21 ≤ length line.old }
    ensures put { Put line.old line.new at.0 result.0 (decimal n ++ (end ∷ [])) }
    ensures result_bound { result.0 ≤ at.0 + 21 }
{
    let mut digits = [0u8; 20];
    let k = io::decimal(n as u64, &mut digits);
    put_column(&digits[..k], end, line, at)
}
