// The length of the written form, and a bound of it, measured as far as the limit: a table's spans may overlap, so its form may be far
// longer than any number holds, and what is past the limit need not be known.
#![tactic(auto)]

ghost use Rattle.std.specs.Prelude.{◌≡◌, ◌+◌, ◌≤◌, length};
ghost use Rattle.octets.specs.Editions.{further};
ghost use Rattle.octets.specs.declared.editions.Edition.TheVariants.{Rfc5988};
ghost use Rattle.outcomes.specs.Number.{limit};
ghost use Rattle.outcomes.specs.Usable.{Usable};
ghost use Rattle.outcomes.specs.Write.{written_form};
ghost use Rattle.records.specs.Slots.{to_param};
ghost use Rattle.tables.specs.Good.{GoodParam};
ghost use Rattle.tables.specs.Meaning.{value_of};
ghost use Rattle.tables.specs.Written.{written_value};
ghost use Rattle.shape.specs.Forms.{params_left, parting, GoodRun};
ghost use Rattle.measuring.specs.Measured.{Measured, Covers, Bounds};
ghost use Rattle.lent.specs.Lent.{lent};

use answers::LIMIT;
use kinds::{LinkNumber, ParamNumber};
use lent::Table;
use records::ParamParts;
use shape::value_len;

// The octets of a value; or, if they aren't to be EXACT, its span's and 2 for quotes, which is as many at least, and known without a look
// at the text.
fn measure_value<const EXACT: bool>(text: &[u8], p: ParamParts) -> usize
    requires good_param { GoodParam (further Rfc5988) text.now (to_param p) }
    requires text_len_bound { length text.now ≤ limit }
    ensures { Covers EXACT (length (written_value (value_of text.now (to_param p)))) result × (result ≤ limit + 2) }
{
    if EXACT {
        value_len(text, p)
    } else {
        p.value.len() + 2
    }
}

// The octets `before`, and those of the parameters from number `first` up to `end`: of each its name and its value, and 3 for `;`, a
// space and `=`.
fn measure_params<const EXACT: bool>(
    text: &[u8],
    params: &[usize],
    first: ParamNumber,
    end: ParamNumber,
    before: usize,
) -> usize
    requires good_run { GoodRun text.now params.now first.0 end.0 }
    requires text_len_bound { length text.now ≤ limit }
    ensures { Bounds EXACT (before + length (params_left text.now params.now end.0 first.0)) result }
{
    let mut n = before;
    for k in 0..first.up_to(end) {
        if n > LIMIT {
            return n;
        }
        let p = first.plus(k);
        let param = records::parts_at(params, p);
        n += param.name.len() + measure_value::<EXACT>(text, param) + 3;
    }
    n
}

// How many octets part a link from the one before it.
fn parting_len(first: bool) -> usize
    ensures { result ≡ length (parting first) }
{
    if first { 0 } else { 2 }
}

// The octets of the whole form: of each link what parts it from the one before, its target in `<` and `>`, and its parameters. The loops
// are compiled once for each value of EXACT, and hold no test of it.
fn measure_form<const EXACT: bool>(t: &Table) -> usize
    requires { Usable Rfc5988 (lent t.now) }
    ensures { Bounds EXACT
        (length (written_form (lent t.now))) result }
{
    let first_link = LinkNumber::first();
    let mut n = 0;
    for i in 0..t.counts.links {
        if n > LIMIT {
            return n;
        }
        let link = first_link.plus(i);
        let l = records::link_at(t.links, link);
        let parting = parting_len(i == 0);
        let target = l.target.len() + 2;
        let first = l.first;
        let end = first.plus(l.count);
        n = measure_params::<EXACT>(t.text, t.params, first, end, n + parting + target);
    }
    n
}

// The length of the written form.
pub fn form_len(t: &Table) -> usize
    requires { Usable Rfc5988 (lent t.now) }
    ensures { Measured
        (length (written_form (lent t.now))) result }
{
    measure_form::<true>(t)
}

// A length that the written form doesn't exceed, from the records alone; past the limit it tells nothing.
pub fn form_bound(t: &Table) -> usize
    requires { Usable Rfc5988 (lent t.now) }
    ensures { result ≤ limit → length (written_form
        (lent t.now)) ≤ result }
{
    measure_form::<false>(t)
}
