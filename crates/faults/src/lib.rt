//! Why a call is refused, and the fault that a check finds.
#![tactic(auto)]

ghost use Rattle.std.specs.Prelude.{◌≡◌};
ghost use Rattle.faults.specs.Faults.{number_of, required, refused_unless};
ghost use Rattle.faults.specs.Apart.{RefusalsAreToldApart, FaultsAreToldApart, ResultsAreToldApart, OutcomesAreToldApart};

/// Why a call is refused. The discriminant is the outcome that the firmware and an error frame are told; outcome 0 is no refusal.
#[derive(Clone, Copy, Debug, PartialEq, Eq)]
pub enum Refusal {
    NoReplySpace = 1,
    StoreLength = 2,
    NotReady = 3,
    FrameLength = 4,
    DataLength = 5,
    CrcDiffers = 6,
    NotForUs = 7,
    BadSource = 8,
    Unserved = 20,
    Length = 21,
    NoPointType = 22,
    NoLogical = 23,
    NoParameter = 24,
    LevelTooLow = 25,
    ReadOnly = 26,
    OutOfRange = 27,
    ReplyTooLong = 28,
    OutsideTable = 29,
    CountZero = 30,
    InvalidDate = 31,
}

impl Refusal {
    /// The outcome that stands for it.
    pub fn outcome(self) -> u8
        ensures { result ≡ number_of self }
    {
        self as u8
    }
}

/// What a check found: why the request is refused, and at which byte of its data.
#[derive(Clone, Copy, Debug, PartialEq, Eq)]
pub struct Fault {
    pub refusal: Refusal,
    pub place: u8,
}

/// Passes where the condition holds; else the fault.
pub fn require(holds: bool, refusal: Refusal, place: u8) -> Result<(), Fault>
    ensures { result ≡ required holds refusal place }
{
    if holds {
        return Ok(());
    }
    Err(Fault { refusal, place })
}

/// Passes where the condition holds; else the refusal, where no place goes with it.
pub fn refuse_unless(holds: bool, refusal: Refusal) -> Result<(), Refusal>
    ensures { result ≡ refused_unless holds refusal }
{
    holds.then_some(()).ok_or(refusal)
}

/// No two refusals have one outcome, and 0 is none's, so what a contract says of a result, as a check of the rules or by its outcome, leaves no choice
/// of the result.
#[tactic(auto, using(crate::proofs::Apart::refusals_apart, crate::proofs::Apart::faults_apart, crate::proofs::Apart::results_apart, crate::proofs::Apart::outcomes_apart))]
pub fn refusals_are_told_apart<A>()
    ensures refusals { RefusalsAreToldApart }
    ensures faults { FaultsAreToldApart A }
    ensures results { ResultsAreToldApart A }
    ensures outcomes { OutcomesAreToldApart }
{}
