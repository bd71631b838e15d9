//! The number read, for Rust and for C.

ghost use Rattle.demands.specs.Readings.{BothReadOne, NumberIsRaw, KindIsKept};

/// Kind and bits say the same number as the reading, which of the four it is among them, and a refusal is the same.
#[tactic(auto, using(values::proofs::SameReading::number_raw, crate::proofs::Rulesets::readings))]
pub fn both_number_reads_say_one_number()
    ensures reading { BothReadOne }
    ensures check { NumberIsRaw }
    ensures kind { KindIsKept }
{}
