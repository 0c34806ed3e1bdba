// Whether the parameters of a link are good.
#![tactic(auto)]

ghost use Rattle.std.specs.Prelude.{◌+◌, ◌≤◌, []};
ghost use Rattle.octets.specs.Editions.{further};
ghost use Rattle.grammar.specs.Records.{param_room_of};
ghost use Rattle.tables.specs.Good.{InText, GoodValue};
ghost use Rattle.records.specs.Slots.{to_param};
ghost use Rattle.part_check.specs.Decides.{Decides};
ghost use Rattle.param_check.specs.Params.{WiderValue, CodedName, CodedParam, GoodParams};

use kinds::{ParamNumber, Span};
use names::Seen;
use octets::editions::Edition;
use part_check::{is_inside, is_span, is_token_part, is_wider_part};
use records::{ParamParts, ParamRecord, param_at};

// Whether the form is 3, and the value is what the edition allows without quotes though it is no token. The edition is asked first, so
// that RFC 8288's pays nothing for the form.
fn is_wider_value(edition: Edition, s: &[u8], p: ParamParts) -> bool
    requires { InText s.now p.value.from.0 p.value.to.0 }
    ensures { Decides result (WiderValue (further edition) s.now (to_param p)) }
{
    match edition {
        Edition::Rfc8288 => false,
        Edition::Rfc5988 => p.form == 3 && is_wider_part(edition, s, p.value),
    }
}

// Whether the form is 0, 1, 2 or, where the edition has further octets, 3, and the value is as its form says.
fn is_good_value(edition: Edition, s: &[u8], p: ParamParts) -> bool
    requires { InText s.now p.value.from.0 p.value.to.0 }
    ensures { Decides result (GoodValue (further edition) s.now (to_param p)) }
{
    let form = p.form;
    let value = p.value;
    match form {
        0 => (value.from.0 == p.name.to.0) & (value.to.0 == p.name.to.0),
        1 => is_token_part(s, value),
        2 => is_inside(s, value),
        _ => is_wider_value(edition, s, p),
    }
}

// Whether the name that stands there has this code, and is a token. A known name is one, and isn't looked at again.
fn is_good_name(s: &[u8], name: Span, code: usize) -> bool
    requires { InText s.now name.from.0 name.to.0 }
    ensures { Decides result (CodedName s.now name.from.0 name.to.0 code) }
{
    let told = names::code(s, name);
    if told != code {
        return false;
    }
    if code > 0 {
        return true;
    }
    is_token_part(s, name)
}

// Whether the spans lie in the text, the name and the value obey the grammar, and the code agrees with the name.
fn is_good_param(edition: Edition, s: &[u8], p: ParamRecord) -> bool
    ensures { Decides result (CodedParam (further edition) s.now p) }
{
    let parts = p.parts;
    let name = parts.name;
    let value = parts.value;
    if is_span(s, name) && is_span(s, value) && is_good_value(edition, s, parts) {
        return is_good_name(s, name, p.code);
    }
    false
}

// Whether `count` parameters from `first` on are good, their codes agree with their names, and no two of them share a name kept once.
pub fn are_good_params(
    edition: Edition,
    s: &[u8],
    slots: &[usize],
    first: ParamNumber,
    count: usize,
) -> bool
    requires { first.0 + count ≤ param_room_of slots.now }
    ensures { Decides result (GoodParams (further edition) s.now slots.now [] first.0 count) }
{
    let mut seen = Seen::none();
    for k in 0..count {
        let p = param_at(slots, first.plus(k));
        if !is_good_param(edition, s, p) {
            return false;
        }
        let code = p.code;
        if seen.has(code) {
            return false;
        }
        seen = seen.with(code);
    }
    true
}
