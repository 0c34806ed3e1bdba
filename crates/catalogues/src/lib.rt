// Catalogues of packs, steps and walks, as definitions, and their laws.
#![tactic(auto)]

ghost use Rattle.catalogues.specs.Laws.{OneCatalogue, FoundAgain, CatalogueDecided, WalkSettled, Onwards, StepsTaken};
ghost use Rattle.catalogues.specs.Examples.{ExamplesHold};

// A text is a catalogue of one list of packs at most.
pub fn one_catalogue()
    ensures { OneCatalogue }
{}

// Each pack of a catalogue is found by its URI.
pub fn found_again()
    ensures { FoundAgain }
{}

// Whether a text is a catalogue is decided.
pub fn catalogue_decided()
    ensures { CatalogueDecided }
{}

// A walk has one outcome.
pub fn walk_settled()
    ensures { WalkSettled }
{}

// A walk goes on from where another arrived.
pub fn onwards()
    ensures { Onwards }
{}

// How many steps a walk takes.
pub fn steps_taken()
    ensures { StepsTaken }
{}

// The examples hold that were judged by hand.
pub fn examples_hold()
    ensures { ExamplesHold }
{}
