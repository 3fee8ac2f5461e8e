//! Laws of what is known of a table, under each engine. The functions do nothing.

ghost use Rattle.dstm_tables.specs.Laws.{HistoriesAreWhole, SightsAreValues, StaysAtClose};

use dstm_model::Law;

/// What is known of a caller as it was taken back is so in the record of its table.
pub fn stays_at_close<L: Law>()
    ensures { StaysAtClose L L.holds }
{}

/// What was committed on a table is what its callers tell, in the order of the numbers.
pub fn histories_are_whole<L: Law>()
    ensures { HistoriesAreWhole L L.holds }
{}

/// What attempts saw are values of one moment.
pub fn sights_are_values<L: Law>()
    ensures { SightsAreValues L L.holds }
{}
