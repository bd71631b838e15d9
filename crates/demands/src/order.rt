//! What is in order stays in order.

ghost use Rattle.demands.specs.InOrder.{RequestKeepsRange, SystemWriteKeepsRange, FillKeepsRange, FreshIsInRange};
ghost use Rattle.demands.specs.InOrder.{RequestKeepsDate, TickKeepsDate, FilledIsGood, CallKeepsGood, RunKeepsGood};

/// Values in range stay in range, pairs of type 124 among them; those of a filled store are.
pub fn values_stay_in_range()
    ensures request { RequestKeepsRange }
    ensures system_write { SystemWriteKeepsRange }
    ensures fill { FillKeepsRange }
    ensures fresh { FreshIsInRange }
{}

/// A clock with a valid date keeps one, whatever a request sets and as it ticks.
#[tactic(auto, using(crate::proofs::Rulesets::dates))]
pub fn dates_stay_valid()
    ensures request { RequestKeepsDate }
    ensures tick { TickKeepsDate }
{}

/// From a fill and a valid date on, after any sequence of calls, the store is whole, every value in range and the date valid.
pub fn order_stays()
    ensures filled { FilledIsGood }
    ensures call { CallKeepsGood }
    ensures run { RunKeepsGood }
{}
