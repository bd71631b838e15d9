//! No level learns what it may not read.

ghost use Rattle.demands.specs.Secrecy.{CallTellsNothing, RunTellsNothing, AgreementByNumber, HiddenValueIsUnseen, HiddenValueIsUntold};
ghost use Rattle.demands.specs.Secrecy.{TextHiddenAtLevel1, TextToldAtLevel2, SwitchHiddenAtLevel0, SwitchToldAtLevel1, StoresDiffer};

/// Two whole stores that agree in all that a level may read are not told apart by any sequence of calls at levels up to it, and still agree
/// after it.
pub fn levels_learn_no_more()
    ensures call { CallTellsNothing }
    ensures run { RunTellsNothing }
{}

/// It is enough that the stores agree wherever a type, a logical and a parameter are found by their numbers.
#[tactic(auto, using(crate::proofs::Numbered::agree_by_number))]
pub fn agreement_goes_by_number()
    ensures { AgreementByNumber }
{}

/// A value stored where a level may not read is not seen at that level, nor by anything that is done at levels up to it.
pub fn hidden_values_are_not_told()
    ensures unseen { HiddenValueIsUnseen }
    ensures untold { HiddenValueIsUntold }
{}

/// Two different stores that level 1 does not tell apart and one request of level 2 does, and two that level 0 does not and level 1 does.
#[tactic(auto, using(crate::proofs::Rulesets::next_level))]
pub fn the_next_level_is_told()
    ensures hidden_at_1 { TextHiddenAtLevel1 }
    ensures told_at_2 { TextToldAtLevel2 }
    ensures hidden_at_0 { SwitchHiddenAtLevel0 }
    ensures told_at_1 { SwitchToldAtLevel1 }
    ensures differ { StoresDiffer }
{}
