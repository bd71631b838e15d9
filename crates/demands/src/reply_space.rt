//! What every request leaves in the reply space, and the lengths that stay.

ghost use Rattle.demands.specs.Replies.{ReplyIsOneFrame, SpaceBehindStays, ReplyFits};
ghost use Rattle.demands.specs.Replies.{RequestKeepsStoreLength, RequestKeepsClockLength, SystemWriteKeepsStoreLength};

/// The reply space holds one whole frame at its front or is untouched; behind it nothing changes; it has room for what was sent.
#[tactic(auto, using(crate::proofs::Replies::one_frame, crate::proofs::Replies::behind, crate::proofs::Replies::reply_fits))]
pub fn replies_are_one_frame()
    ensures frame { ReplyIsOneFrame }
    ensures behind { SpaceBehindStays }
    ensures fits { ReplyFits }
{}

/// The store keeps its length, and a clock of seven bytes stays one.
#[tactic(auto, using(crate::proofs::Replies::store_length, crate::proofs::Replies::clock_length, crate::proofs::Replies::system_length))]
pub fn lengths_stay()
    ensures store { RequestKeepsStoreLength }
    ensures clock { RequestKeepsClockLength }
    ensures system_write { SystemWriteKeepsStoreLength }
{}
