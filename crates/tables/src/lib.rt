// The laws of tables and of the written form, held by the gate: each function promises one statement of specs/Laws.antt
// and does nothing.
#![tactic(auto)]

ghost use Rattle.tables.specs.Laws.{RelationsMeant, QueryFolded, NoQuery, GoodDecided, FormThree, GoodAlike, ReadGood, ReadBack, WrittenTells};

// A link's relations are told by its meaning alone.
pub fn relations_meant()
    ensures { RelationsMeant }
{}

// A query is compared folded.
pub fn query_folded()
    ensures { QueryFolded }
{}

// An empty query, or one with an SP, matches nothing.
pub fn no_query()
    ensures { NoQuery }
{}

// Whether a table is good is decided.
pub fn good_decided()
    ensures { GoodDecided }
{}

// Which values have form 3, and which form 1.
pub fn form_three()
    ensures { FormThree }
{}

// What is good in some edition is good in the older one.
pub fn good_alike()
    ensures { GoodAlike }
{}

// What is read is a good table, and its links are those of the reading.
pub fn read_good()
    ensures { ReadGood }
{}

// The written form of a good table reads, in every edition, to the same counts and an equal list of link meanings.
pub fn read_back()
    ensures { ReadBack }
{}

// Two good tables with one written form have equal lists of link meanings.
pub fn written_tells()
    ensures { WrittenTells }
{}
