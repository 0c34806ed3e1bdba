// Parameters put into a buffer in their written form, one behind another.
#![tactic(auto)]

ghost use Rattle.std.specs.Prelude.{◌+◌, ◌≤◌, length};
ghost use Rattle.octets.specs.Editions.{further};
ghost use Rattle.octets.specs.declared.editions.Edition.TheVariants.{Rfc5988};
ghost use Rattle.kinds.specs.Put.{Put};
ghost use Rattle.records.specs.Slots.{to_param};
ghost use Rattle.tables.specs.Good.{InText, GoodParam};
ghost use Rattle.tables.specs.Meaning.{value_of};
ghost use Rattle.tables.specs.Written.{written_value};
ghost use Rattle.values.specs.Rest.{rest};
ghost use Rattle.shape.specs.Shape.{in_quotes};
ghost use Rattle.shape.specs.Forms.{param_form, params_left, GoodRun};

use kinds::{OutPlace, ParamNumber, Span};
use putting::escaped::put_escaped;
use putting::part::put_folded;
use putting::{put, put_two};
use records::ParamParts;
use shape::is_bare;
use values::copy_meaning;

// What the part means, in quotes.
fn put_in_quotes(s: &[u8], part: Span, out: &mut [u8], at: OutPlace) -> OutPlace
    requires in_text { InText s.now part.from.0 part.to.0 }
    requires from_in_bounds { at.0 + length (in_quotes (rest s.now part.to.0 part.from.0)) ≤ length out.old }
    ensures { Put out.old out.new at.0 result.0
        (in_quotes (rest s.now part.to.0 part.from.0)) }
{
    let inside = put(out, at, b'"');
    let end = put_escaped(s, part, out, inside);
    put(out, end, b'"')
}

// A parameter's value, bare or in quotes.
fn put_value(text: &[u8], p: ParamParts, out: &mut [u8], at: OutPlace) -> OutPlace
    requires good_param { GoodParam (further Rfc5988) text.now (to_param p) }
    requires p_in_bounds { at.0 + length (written_value (value_of text.now (to_param p))) ≤ length out.old }
    ensures { Put out.old out.new at.0 result.0 (written_value (value_of text.now (to_param p))) }
{
    if is_bare(text, p) {
        return copy_meaning(text, p.value, out, at);
    }
    put_in_quotes(text, p.value, out, at)
}

// One parameter: `;`, space, folded name, `=`, value.
fn put_param(text: &[u8], p: ParamParts, out: &mut [u8], at: OutPlace) -> OutPlace
    requires good_param { GoodParam (further Rfc5988) text.now (to_param p) }
    requires p_in_bounds { at.0 + length (param_form text.now (to_param p)) ≤ length out.old }
    ensures { Put out.old out.new at.0 result.0 (param_form text.now (to_param p)) }
{
    let name = put_two(out, at, b';', b' ');
    let equals = put_folded(text, p.name, out, name);
    let value = put(out, equals, b'=');
    put_value(text, p, out, value)
}

// The parameters from number `first` up to `end`.
pub fn put_params(
    text: &[u8],
    params: &[usize],
    first: ParamNumber,
    end: ParamNumber,
    out: &mut [u8],
    at: OutPlace,
) -> OutPlace
    requires good_run { GoodRun text.now params.now first.0 end.0 }
    requires first_in_bounds { at.0 + length (params_left text.now params.now end.0 first.0) ≤ length out.old }
    ensures { Put out.old out.new at.0 result.0
        (params_left text.now params.now end.0 first.0) }
{
    let mut to = at;
    for k in 0..first.up_to(end) {
        let p = first.plus(k);
        let param = records::parts_at(params, p);
        to = put_param(text, param, out, to);
    }
    to
}
