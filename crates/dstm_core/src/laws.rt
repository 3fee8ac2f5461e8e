//! Laws of core runs. Each is a statement on every core run of every shape, first values and law; the
//! functions do nothing.

ghost use Rattle.dstm_core.specs.Laws.{EveryPrefixIsOne, FinishedStays, InstalledStays};

use dstm_model::Law;

/// Every prefix of a core run is a core run.
pub fn every_prefix_is_one<L: Law>()
    ensures { EveryPrefixIsOne L.holds }
{}

/// A status that is committed or aborted never changes.
pub fn finished_stays<L: Law>()
    ensures { FinishedStays L.holds }
{}

/// A locator that was installed keeps its owner and its old version, and its new version is put at
/// most once.
pub fn installed_stays<L: Law>()
    ensures { InstalledStays L.holds }
{}
