// Lists a header on standard output: its links and their parameters, or why it is refused. The lines are those of the crate `lines`,
// and their numbers those of the answer and of the records; what is done here is to hand them out.
#![tactic(auto)]

ghost use Rattle.std.specs.Prelude.{◌+◌, ◌≤◌};
ghost use Rattle.grammar.specs.Records.{param_room_of};
ghost use Rattle.io.specs.Counts.{IsPrefixLen as Within};
ghost use Rattle.outcomes.specs.Read.{Read};
ghost use Rattle.answers.specs.Read.{read_numbers, read_out};
ghost use Rattle.listing.specs.Held.{Held};

use answers::read_answer::ReadAnswer;
use columns::Line;
use kinds::{Counts, LinkNumber};
use records::LinkRecord;

// Hands a line out.
pub fn put(line: Line)
    requires { Within line.len line.octets }
{
    let octets = line.octets;
    let n = line.len;
    io::write_all(1, &octets[..n]);
}

// A link's parameters.
fn put_params(params: &[usize], l: LinkRecord)
    requires { l.first.0 + l.count ≤ param_room_of params.now }
{
    let first = l.first;
    let count = l.count;
    for k in 0..count {
        let n = first.plus(k);
        put(lines::param_line(n, records::param_at(params, n)));
    }
}

// Both counts, and each link followed by its parameters.
fn put_table(links: &[usize], params: &[usize], counts: Counts)
    requires { Held links.now params.now counts.links counts.params }
{
    put(lines::counts_line(counts));
    let first = LinkNumber::first();
    for i in 0..counts.links {
        let n = first.plus(i);
        let l = records::link_at(links, n);
        put(lines::link_line(n, l));
        put_params(params, l);
    }
}

// Reads the header into the lent tables, lists the answer, and hands it on.
pub fn list(edition: usize, header: &[u8], links: &mut [usize], params: &mut [usize]) -> ReadAnswer
    ensures { Read edition header.now links.old params.old
        (read_out (read_numbers result) links.new params.new) }
{
    let answer = reader::read(edition, header, links, params);
    if let Ok(counts) = answer {
        put_table(links, params, counts);
        return answer;
    }
    put(lines::refusal_line(answer.into()));
    answer
}
