// The first parameter of a code in a link.
#![tactic(auto)]

ghost use Rattle.std.specs.Prelude.{◌+◌, ◌≤◌};
ghost use Rattle.grammar.specs.Records.{param_room_of};
ghost use Rattle.named.specs.First.{FirstCoded};

use records::{LinkRecord, ParamParts, code_at, parts_at};

// The first of a link's parameters whose record has this code. No name is looked at.
pub fn first_of(params: &[usize], l: LinkRecord, code: usize) -> Option<ParamParts>
    requires { l.first.0 + l.count ≤ param_room_of params.now }
    ensures { FirstCoded params.now l code result }
{
    for k in 0..l.count {
        let p = l.first.plus(k);
        if code_at(params, p) == code {
            return Some(parts_at(params, p));
        }
    }
    None
}
