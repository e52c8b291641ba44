// Worked examples of the meanings, and samples of each clause.
ghost use Rattle.examples.specs.Examples.{Examples};
ghost use Rattle.examples.specs.Samples.{Samples};

/// The table of worked examples holds.
pub fn examples_hold()
    ensures { Examples }
{}

/// Every clause of the refusal table, and of the answers, does what its samples say.
pub fn samples_hold()
    ensures { Samples }
{}
