// The laws of the grammar, held by the gate: each function promises one statement of specs/Laws.antt and does nothing.
#![tactic(auto)]

ghost use Rattle.grammar.specs.Laws.{EditionsApart, ReadByAll};
ghost use Rattle.grammar.specs.Laws.{MachineExact, OneReading, Decided, OnePlace, Codes, Keeps, CutShort, OctetsOnly, Joins, JoinsMalformed};

// Each edition's further octets keep apart.
pub fn editions_apart()
    ensures { EditionsApart }
{}

// Whatever RFC 8288's edition reads, every edition reads to the same links.
pub fn read_by_all()
    ensures { ReadByAll }
{}

// The machine is exact for the grammar.
pub fn machine_exact()
    ensures { MachineExact }
{}

// No header has two readings.
pub fn one_reading()
    ensures { OneReading }
{}

// Whether a header has a reading is decided.
pub fn decided()
    ensures { Decided }
{}

// A header's place exists, is unique and is found.
pub fn one_place()
    ensures { OnePlace }
{}

// A known name's code is its number in the list of known names, and every other name's is 0.
pub fn known_names()
    ensures { Codes }
{}

// Of names with a code from 1 to 6 the first parameter is kept, of all other names each one.
pub fn keeps()
    ensures { Keeps }
{}

// A header cut short has its own length as place.
pub fn cut_short()
    ensures { CutShort }
{}

// Every number of a derivable header is an octet.
pub fn octets_only()
    ensures { OctetsOnly }
{}

// A join of headers that have readings reads to their records, raised.
pub fn joins()
    ensures { Joins }
{}

// A header that has a reading, followed by a malformed one, joins to a malformed header.
pub fn joins_malformed()
    ensures { JoinsMalformed }
{}
