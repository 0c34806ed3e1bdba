// The records of one link, behind its `<`.
ghost use Rattle.octets.specs.Editions.{further};
ghost use Rattle.filling.specs.Filling.{BeforeLink, LinkFilled};

use crate::params::{Behind, fill_params};
use cursor::Cursor;
use kinds::{LinkNumber, ParamNumber};
use known::target::target_end;
use octets::editions::Edition;
use records::LinkRecord;

// Writes the records of a link and of its kept parameters.
pub fn fill_link(
    edition: Edition,
    s: &[u8],
    from: Cursor,
    links: &mut [usize],
    n: LinkNumber,
    params: &mut [usize],
    m: ParamNumber,
) -> Behind
    requires { BeforeLink (further edition) s.now links.old params.old from.at.0 n.0 m.0 }
    ensures { LinkFilled (further edition) s.now from.at.0 result.cursor.at.0 n.0 m.0 result.next.0
        links.old links.new params.old params.new }
{
    let t = target_end(s, from);
    let behind = fill_params(edition, s, t.past_octet(s), params, m);
    let target = from.span_to(t);
    let count = behind.next.0 - m.0;
    let r = LinkRecord {
        target,
        first: m,
        count,
    };
    records::put_link(links, n, r);
    behind
}
