// The lines of a listing, each as a value, and the input without the LF that ends it. Nothing is read or written here.
#![tactic(auto)]

ghost use Rattle.columns.specs.LineHolds.{LineHolds};
ghost use Rattle.records.specs.Slots.{link_numbers, param_numbers};
ghost use Rattle.lines.specs.FinalLf.{IsTrimmed};
ghost use Rattle.lines.specs.Line.{counts_line, link_line, param_line, refusal_line};

use answers::read_answer::ReadNumbers;
use columns::{Line, line_of};
use kinds::{Counts, LinkNumber, ParamNumber};
use records::{LinkRecord, ParamRecord};

pub fn counts_line(counts: Counts) -> Line
    ensures { LineHolds result (counts_line counts.links counts.params) }
{
    line_of(b"links", counts.links, &[counts.params])
}

pub fn link_line(number: LinkNumber, link: LinkRecord) -> Line
    ensures { LineHolds result (link_line number.0 (link_numbers link)) }
{
    let fields = link.numbers();
    line_of(b"link", number.0, &fields)
}

pub fn param_line(number: ParamNumber, param: ParamRecord) -> Line
    ensures { LineHolds result (param_line number.0 (param_numbers param)) }
{
    let fields = param.numbers();
    line_of(b"param", number.0, &fields)
}

// Of the numbers of reading's answer.
pub fn refusal_line(told: ReadNumbers) -> Line
    ensures { LineHolds result (refusal_line told.number told.place) }
{
    line_of(b"refused", told.number, &[told.place])
}

// What stands before one final LF, if there.
pub fn without_final_lf(s: &[u8]) -> &[u8]
    ensures { IsTrimmed s.entry result }
{
    let n = s.len();
    if 0 < n && s[n - 1] == b'\n' {
        return &s[..n - 1];
    }
    s
}
