// The line of a link that is resolved, put into a buffer. Nothing is written out here.
#![tactic(auto)]

ghost use Rattle.std.specs.Prelude.{◌+◌, ◌≤◌, length};
ghost use Rattle.kinds.specs.Put.{Put};
ghost use Rattle.resolved_lines.specs.ResolvedLine.{resolved_line};

use kinds::OutPlace;
use put_columns::put_column;

// Puts the line at the buffer's start, and answers its length. A number has 20 digits at most.
pub fn put_line(number: usize, target: &[u8], context: &[u8], line: &mut [u8]) -> usize
    requires { length target.now + length context.now + 23 ≤ length line.old }
    ensures put { Put line.old line.new 0 result (resolved_line number target.now context.now) }
    ensures upper_bound { result ≤ length line.new }
{
    let mut digits = [0u8; 20];
    let k = io::decimal(number as u64, &mut digits);
    let numbered = put_column(&digits[..k], b'\t', line, OutPlace::start());
    let targeted = put_column(target, b'\t', line, numbered);
    put_column(context, b'\n', line, targeted).0
}
