//! What a call that is acted on leaves in the store.

ghost use Rattle.demands.specs.Stores.{RequestLeavesWhatItBrings, UnnamedIsKept, NamedHoldsLast, ReadOnlyIsKept, OutOfReachIsKept};
ghost use Rattle.demands.specs.Stores.{SystemWriteStoresValue, SystemWriteHoldsValue, SystemWriteKeepsRest, FillLeavesDefaults};

/// A request that is acted on leaves the values that it brings, all and in their order, the clock as opcode 8 sets it or as it was, and the
/// reply that the rules give.
#[tactic(auto, using(crate::proofs::Acted::acts))]
pub fn a_request_leaves_what_it_brings()
    ensures { RequestLeavesWhatItBrings }
{}

/// A parameter that a request names holds the last value for it; one that it does not name, is read-only or out of its level's reach keeps
/// its bytes.
#[tactic(auto, using(crate::proofs::Rulesets::keeping))]
pub fn only_what_is_named_changes()
    ensures unnamed { UnnamedIsKept }
    ensures named { NamedHoldsLast }
    ensures read_only { ReadOnlyIsKept }
    ensures out_of_reach { OutOfReachIsKept }
{}

/// A system write that is acted on leaves its value in its parameter, and every other as it was.
#[tactic(auto, using(crate::proofs::Settings::system_acts, crate::proofs::Settings::system_holds, crate::proofs::Settings::system_kept))]
pub fn a_system_write_stores_its_value()
    ensures store { SystemWriteStoresValue }
    ensures value { SystemWriteHoldsValue }
    ensures rest { SystemWriteKeepsRest }
{}

/// A fill of a whole store leaves the defaults.
#[tactic(auto, using(crate::proofs::Refused::fill_fills))]
pub fn a_fill_leaves_the_defaults()
    ensures { FillLeavesDefaults }
{}
