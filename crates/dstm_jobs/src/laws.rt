//! A law of what is known of a table on which jobs were tried, under each engine. The function does nothing.

ghost use Rattle.dstm_jobs.specs.Laws.{StaysAtClose};

/// What is known of a caller's attempts at jobs as it was taken back is so in the record of its table.
pub fn stays_at_close()
    ensures { StaysAtClose }
{}
