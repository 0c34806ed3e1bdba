// The editions of the grammar. They differ in the octets that a value without quotes may hold beside those of a token.
ghost use Rattle.octets.specs.Editions.{IsAsked};

// The numbers that ask for them.
pub const RFC8288: usize = 0;

pub const RFC5988: usize = 1;

// An edition that is known: RFC 8288's, and the older one of RFC 5988.
#[derive(Clone, Copy)]
pub enum Edition {
    Rfc8288,
    Rfc5988,
}

// The edition of this number, if there is one. No other place makes an edition of a number.
pub fn edition_of(number: usize) -> Option<Edition>
    ensures { IsAsked number result }
{
    match number {
        RFC8288 => Some(Edition::Rfc8288),
        RFC5988 => Some(Edition::Rfc5988),
        _ => None,
    }
}
