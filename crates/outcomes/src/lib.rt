// The laws of the outcomes, held by the gate: each function promises one statement of specs/Laws.antt and does nothing.
#![tactic(auto)]

ghost use Rattle.outcomes.specs.Laws.{Refusals, ReadSettled, SearchSettled, ContextSettled, CopySettled, WriteSettled};
ghost use Rattle.outcomes.specs.Laws.{UnknownRefused, TitleSettled, DecodeSettled, FeedSettled, FinishSettled, StartHolds};
ghost use Rattle.outcomes.specs.Laws.{ResolveSettled, ResolvedContextSettled};

// A refusal answers zeros and changes nothing lent, and success keeps what stands behind.
pub fn refusals()
    ensures { Refusals }
{}

// A number that is no edition's is refused with 10, before all else.
pub fn unknown_refused()
    ensures { UnknownRefused }
{}

// Reading a header has one outcome.
pub fn read_settled()
    ensures { ReadSettled }
{}

// Searching a table has one outcome.
pub fn search_settled()
    ensures { SearchSettled }
{}

// Asking for a link's context has one outcome.
pub fn context_settled()
    ensures { ContextSettled }
{}

// Copying a parameter's value has one outcome.
pub fn copy_settled()
    ensures { CopySettled }
{}

// Writing a table has one outcome.
pub fn write_settled()
    ensures { WriteSettled }
{}

// Asking for a link's title has one outcome.
pub fn title_settled()
    ensures { TitleSettled }
{}

// Decoding an extended value has one outcome.
pub fn decode_settled()
    ensures { DecodeSettled }
{}

// Resolving a reference has one outcome.
pub fn resolve_settled()
    ensures { ResolveSettled }
{}

// Asking for a link's resolved context has one outcome.
pub fn resolved_context_settled()
    ensures { ResolvedContextSettled }
{}

// A feed has one outcome.
pub fn feed_settled()
    ensures { FeedSettled }
{}

// So has the finish.
pub fn finish_settled()
    ensures { FinishSettled }
{}

// The state of a start in an edition is right for no octets.
pub fn start_holds()
    ensures { StartHolds }
{}
