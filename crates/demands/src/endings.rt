//! How every call ends.

ghost use Rattle.demands.specs.Endings.{RequestEndsAsListed, SystemWriteEndsAsListed, NumberReadEndsAsListed, RawReadEndsAsListed, FillEndsAsListed, TickEndsAsListed};
ghost use Rattle.demands.specs.Endings.{RequestEndsByItsTable, SystemWriteEndsByItsTable, NumberReadEndsByItsTable, RawReadEndsByItsTable, FillEndsByItsTable, TickEndsByItsTable};

/// Every call ends with an outcome that is listed for it.
#[tactic(auto, using(crate::proofs::Rulesets::listings))]
pub fn every_call_ends_as_listed()
    ensures request { RequestEndsAsListed }
    ensures system_write { SystemWriteEndsAsListed }
    ensures number_read { NumberReadEndsAsListed }
    ensures raw_read { RawReadEndsAsListed }
    ensures fill { FillEndsAsListed }
    ensures tick { TickEndsAsListed }
{}

/// Every call ends with an outcome exactly where its table of refusals gives it: 0 where no row applies, else the first that does.
pub fn every_call_ends_by_its_table()
    ensures request { RequestEndsByItsTable }
    ensures system_write { SystemWriteEndsByItsTable }
    ensures number_read { NumberReadEndsByItsTable }
    ensures raw_read { RawReadEndsByItsTable }
    ensures fill { FillEndsByItsTable }
    ensures tick { TickEndsByItsTable }
{}
