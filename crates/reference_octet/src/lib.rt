// One octet of a reference: what the machine of RFC 3986's references steps to, as code. A state is any number; one that is no state's
// leads nowhere.
#![tactic(auto)]

ghost use Rattle.std.specs.Prelude.{◌≡◌, ◌≤◌, ◌<◌};
ghost use Rattle.reference_steps.specs.Machine.{step, accepts};

mod outer;

use octet_classes::{Set, is_in};
use reference_literal::dotted::in_dotted;
use reference_literal::groups::in_group;
use reference_literal::literals::in_literal;
use reference_sets::picking::{NOWHERE, pick};

// Behind a `%`: its first hex digit leads 16 further, and its second one back.
fn in_triple(q: usize, c: u8) -> usize
    requires { (16 ≤ q) × (q < 48) }
    ensures { result ≡ step q c }
{
    let hex = is_in(Set::Hex, c);
    if q < 32 {
        return pick(hex, q + 16, NOWHERE);
    }
    pick(hex, q - 32, NOWHERE)
}

// The state behind the octet c in the state q.
pub fn next(q: usize, c: u8) -> usize
    ensures { result ≡ step q c }
{
    if q < 16 {
        return outer::outer(q, c);
    }
    if q < 48 {
        return in_triple(q, c);
    }
    if q < 60 {
        return in_literal(q, c);
    }
    if q < 100 {
        return in_dotted(q, c);
    }
    if q < 580 {
        return in_group(q, c);
    }
    NOWHERE
}

// Whether the text may end in this state.
pub fn accepts(state: usize) -> bool
    ensures { result ≡ accepts state }
{
    (state < 16) & (state != 8)
}
