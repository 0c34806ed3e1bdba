// The URI of a pack, found in a catalogue by the pack's number.
#![tactic(auto)]

ghost use Rattle.pack_uri.specs.Uri.{UriPart};

use kinds::{PackNumber, Place, Span};
use pack_lines::line_at;

// Goes from line to line up to that of the pack. If there is none, the part is empty.
pub fn uri_of(s: &[u8], number: PackNumber) -> Span
    ensures { UriPart s.now number.0 result.from.0 result.to.0 }
{
    let nothing = Span::up_to(0);
    let mut left = number.0;
    let mut at = 0;
    // Each turn passes a line of any length, so a for loop doesn't fit.
    while at < s.len() {
        let Some(p) = line_at(s, Place(at)) else {
            return nothing;
        };
        if left == 0 {
            return Span {
                from: p.from,
                to: p.tab,
            };
        }
        left -= 1;
        at = p.end.0 + 1;
    }
    nothing
}
