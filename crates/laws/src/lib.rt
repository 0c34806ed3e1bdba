// Laws over all the definitions, held by the gate: each function promises one statement of specs/ and does nothing.
#![tactic(auto)]

ghost use Rattle.octets.specs.declared.editions.Edition.{Edition};
ghost use Rattle.laws.specs.Laws.{MarkedHold, SlipsHold, OlderHold, ReferencesHold, LookupsHold, MirrorHolds};
ghost use Rattle.laws.specs.Laws.{TitlesHold, CodesAsked, TargetsAsked, PremiseNeeded};
ghost use Rattle.laws.specs.Answers.{JoinAnswers, JoinRefuses, BackAnswers, WrittenApart, ReadsAlike, TablesAlike};
ghost use Rattle.laws.specs.Feedings.{FinishReads, CutsDontMatter, FinishAgain, CutShortFinishes, FeedAnswers, FeedTells};
ghost use Rattle.laws.specs.Feedings.{TargetsTold, PlaceStays, TooLongForGood, OneAnswer, UnknownForGood};

// The twelve marked headers are as they were read by hand.
pub fn marked_hold()
    ensures { MarkedHold }
{}

// So are headers at which readers elsewhere slip.
pub fn slips_hold()
    ensures { SlipsHold }
{}

// So are headers with bare values, in the older edition and in RFC 8288's.
pub fn older_hold()
    ensures { OlderHold }
{}

// So are headers whose targets are references or none.
pub fn references_hold()
    ensures { ReferencesHold }
{}

// So are headers with titles, and what their links answer.
pub fn titles_hold()
    ensures { TitlesHold }
{}

// Contexts and copied values of two marked headers.
pub fn lookups_hold()
    ensures { (e : Edition) → LookupsHold e }
{}

// A context and a copied value of the older edition, which RFC 8288's refuses.
pub fn mirror_holds()
    ensures { MirrorHolds }
{}

// A table with a code that isn't its name's is bad, to every entry.
pub fn codes_asked()
    ensures { (e : Edition) → CodesAsked e }
{}

// A table with a target that is no reference is bad, to every entry.
pub fn targets_asked()
    ensures { (e : Edition) → TargetsAsked e }
{}

// Two malformed headers may join to one that is not.
pub fn premise_needed()
    ensures { (e : Edition) → PremiseNeeded e }
{}

// A join of accepted headers, read in room for the sums of their counts, answers 0, the sums and their records, raised.
pub fn join_answers()
    ensures { JoinAnswers }
{}

// A join with one malformed header among accepted ones is malformed, at that header's own place, raised, unless it is cut short.
pub fn join_refuses()
    ensures { JoinRefuses }
{}

// What is written for an accepted table reads, in every edition and in room for its counts, to the same counts and an equal list of
// link meanings.
pub fn back_answers()
    ensures { BackAnswers }
{}

// Tables that differ in meaning never share their octets.
pub fn written_apart()
    ensures { WrittenApart }
{}

// Whatever RFC 8288's edition doesn't find malformed, the older one answers alike.
pub fn reads_alike()
    ensures { ReadsAlike }
{}

// Whatever table RFC 8288's edition doesn't find bad, the older one answers alike of it.
pub fn tables_alike()
    ensures { TablesAlike }
{}

// From a start, feeds of any parts and the finish answer what reading answers of all their octets.
pub fn finish_reads()
    ensures { FinishReads }
{}

// The same octets finish alike, wherever they are cut and whatever the buffers held.
pub fn cuts_dont_matter()
    ensures { CutsDontMatter }
{}

// The finish asked again answers and leaves the same.
pub fn finish_again()
    ensures { FinishAgain }
{}

// A header cut short is malformed at the finish, with the total as place.
pub fn cut_short_finishes()
    ensures { CutShortFinishes }
{}

// A feed behind any parts answers the outcome on all octets so far.
pub fn feed_answers()
    ensures { FeedAnswers }
{}

// Within the limit a feed answers 2 exactly if something is wrong with the octets so far.
pub fn feed_tells()
    ensures { FeedTells }
{}

// Feeds tell of a target that is no reference once its `>` is fed, and nothing of it before.
pub fn targets_told()
    ensures { (e : Edition) → TargetsTold e }
{}

// Behind a feed that answers 2, feeds within the limit answer 2 with the same place.
pub fn place_stays()
    ensures { PlaceStays }
{}

// Behind a feed that answers 1, every feed and the finish answer 1.
pub fn too_long_for_good()
    ensures { (e : Edition) → TooLongForGood e }
{}

// What a feed and the finish answer and leave is settled.
pub fn one_answer()
    ensures { OneAnswer }
{}

// Behind a start with a number that is no edition's, feeds leave the state as it was started.
pub fn unknown_for_good()
    ensures { UnknownForGood }
{}
