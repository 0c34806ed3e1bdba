// Whether a Link value is accepted by RFC 8288's edition when it is read by itself.
#![tactic(auto)]

ghost use Rattle.std.specs.Prelude.{length};
ghost use Rattle.accepting.specs.Accepted.{TellsAccepted};

use octets::editions::Edition;

// Whether it is, in these tables. What they hold afterwards is free.
pub fn is_accepted(value: &[u8], links: &mut [usize], params: &mut [usize]) -> bool
    ensures { TellsAccepted value.now (length links.old) (length params.old) result }
{
    reader::read_in(Edition::Rfc8288, value, links, params).is_ok()
}
