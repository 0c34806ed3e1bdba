// RFC 3986's references: laws of their grammar and their components, held by the gate. Each function promises one statement of specs/
// and does nothing.
#![tactic(auto)]

ghost use Rattle.rules.specs.Laws.{MatchesExact};
ghost use Rattle.references.specs.Octets.{Octets};
ghost use Rattle.references.specs.Laws.{ReferenceSplits, URISplits, AbsoluteSplits, NothingLost};
ghost use Rattle.references.specs.Rows.{RowsHold};
ghost use Rattle.references.specs.Addresses.{AddressesHold};
ghost use Rattle.references.specs.Examples.{ExamplesHold};

// Whether the grammar derives a text is computed.
pub fn matches_exact()
    ensures { MatchesExact Octets }
{}

// A text is a reference just if it has components, and has no others.
pub fn reference_splits()
    ensures { ReferenceSplits }
{}

// A URI is a reference with a scheme.
pub fn uri_splits()
    ensures { URISplits }
{}

// An absolute-URI is a URI without a fragment.
pub fn absolute_splits()
    ensures { AbsoluteSplits }
{}

// The components of any text make it again.
pub fn nothing_lost()
    ensures { NothingLost }
{}

// Texts are references, or not, as they were judged by hand.
pub fn rows_hold()
    ensures { RowsHold }
{}

// So are texts with IP literals.
pub fn addresses_hold()
    ensures { AddressesHold }
{}

// Examples have the components that they were read to have.
pub fn examples_hold()
    ensures { ExamplesHold }
{}
