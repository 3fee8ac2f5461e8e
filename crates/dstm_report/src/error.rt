ghost use Rattle.dstm_report.specs.Answers.{IsMemory};

use std::alloc::{AllocError, AllocFailed};

/// Why a report was not read.
#[derive(Debug, Drop)]
pub enum ReportError {
    /// The first line that cannot stand in its place, from 1. Where the text ends too early, it is
    /// the line behind the last.
    Form(u64),
    Memory(AllocError),
}

impl From<AllocError> for ReportError {
    ghost from_gives = { λ _ e. IsMemory e };

    fn from(error: AllocError) -> ReportError {
        ReportError::Memory(error)
    }
}

impl<T: Drop> From<AllocFailed<T>> for ReportError {
    ghost from_gives = { λ _ e. IsMemory e };

    fn from(error: AllocFailed<T>) -> ReportError {
        ReportError::Memory(AllocError::from(error))
    }
}
