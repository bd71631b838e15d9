//! The examples of docs/RULES.md, as theorems about the definitions.
#![tactic(auto)]

ghost use Rattle.examples.specs.Examples.{AllAreSeen, EachIsSeen};

/// What the rules give for each example is what it shows.
#[tactic(auto, using(crate::proofs::Seen::all_seen, crate::proofs::Seen::each_seen))]
pub fn examples_are_as_shown()
    ensures all { AllAreSeen }
    ensures each { EachIsSeen }
{}
