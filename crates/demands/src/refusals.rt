//! What a refusal leaves.

ghost use Rattle.demands.specs.Refusals.{RefusedRequestChangesNothing, RefusedSystemWriteChangesNothing, RefusedFillChangesNothing, RefusedTickChangesNothing, RefusedRawReadChangesNothing};
ghost use Rattle.demands.specs.Refusals.{SilentRefusalWritesNothing, BroadcastWritesNothing, FaultSendsErrorFrame, PlaceIsByte};

/// A refused call leaves what it was handed as it was: store, clock, and what a number read was to fill in.
#[tactic(auto, using(crate::proofs::Rulesets::refusals))]
pub fn refusals_change_nothing()
    ensures request { RefusedRequestChangesNothing }
    ensures system_write { RefusedSystemWriteChangesNothing }
    ensures fill { RefusedFillChangesNothing }
    ensures tick { RefusedTickChangesNothing }
    ensures raw_read { RefusedRawReadChangesNothing }
{}

/// Outcomes 1 to 8 write no byte of the reply space and have length 0.
#[tactic(auto, using(crate::proofs::Refused::silent))]
pub fn silent_refusals_write_nothing()
    ensures { SilentRefusalWritesNothing }
{}

/// A request to all is never answered, whatever its outcome.
#[tactic(auto, using(crate::proofs::Refused::broadcast))]
pub fn broadcasts_are_not_answered()
    ensures { BroadcastWritesNothing }
{}

/// Outcomes 20 to 31 send one error frame to whoever asked: the outcome, and the place of the first row that applies, which is a byte.
#[tactic(auto, using(crate::proofs::Refused::error_frame, crate::proofs::Refused::place_is_byte))]
pub fn faults_send_an_error_frame()
    ensures frame { FaultSendsErrorFrame }
    ensures place { PlaceIsByte }
{}
