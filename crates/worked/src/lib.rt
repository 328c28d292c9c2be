// The worked examples of fields, joiners, encoder and frame, as one fact over the definitions that the calls are proved by.
#![tactic(auto)]

ghost use Rattle.worked.specs.Examples.{WorkedExamples};

// Every worked example holds.
pub fn examples_stand()
    ensures law { WorkedExamples }
{}
