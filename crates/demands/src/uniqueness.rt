//! No contract of a call leaves a choice.

ghost use Rattle.demands.specs.Uniqueness.{RequestIsUnique, SystemWriteIsUnique, FillIsUnique, TickIsUnique, MomentIsUnique, NumberReadIsUnique, RawReadIsUnique};
ghost use Rattle.demands.specs.Uniqueness.{RequestResultIsUnique, SystemWriteResultIsUnique, FillResultIsUnique, MomentResultIsUnique, NumberResultIsUnique, RawResultIsUnique};

/// Two results that meet the contract of one call are equal: in the rules' words, and as the functions of the code give them back.
#[tactic(auto, using(crate::proofs::Rulesets::uniqueness, crate::proofs::Rulesets::result_uniqueness))]
pub fn no_contract_leaves_a_choice()
    ensures request { RequestIsUnique }
    ensures system_write { SystemWriteIsUnique }
    ensures fill { FillIsUnique }
    ensures tick { TickIsUnique }
    ensures moment { MomentIsUnique }
    ensures number_read { NumberReadIsUnique }
    ensures raw_read { RawReadIsUnique }
    ensures request_result { RequestResultIsUnique }
    ensures system_write_result { SystemWriteResultIsUnique }
    ensures fill_result { FillResultIsUnique }
    ensures moment_result { MomentResultIsUnique }
    ensures number_result { NumberResultIsUnique }
    ensures raw_result { RawResultIsUnique }
{}
