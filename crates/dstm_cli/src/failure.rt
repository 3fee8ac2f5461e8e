ghost use Rattle.std.specs.Prelude.{◌≡◌, OnOk, OnErr};
ghost use Rattle.std.specs.Io.KnownBytes.{Appends};
ghost use Rattle.dstm_io.specs.Count.{Rises};
ghost use Rattle.dstm_io.specs.Sink.{AppendsPart};
ghost use Rattle.dstm_cli.specs.Failure.{status_of, message_of, numbered};

use dstm_command::WordsError;
use dstm_io::{ReadError, Sink, WriteFault, write_all};
use dstm_report::ReportError;
use dstm_workload::{Refused, WorkloadError};
use itoa::Buffer;
use std::alloc::AllocError;

/// Why a command did not end with its whole output written.
#[derive(Clone, Copy, Debug, PartialEq, Eq)]
pub enum Failure {
    /// The words are no command.
    Usage,
    /// The source met a fault.
    ReadFault,
    /// There is more input than the command takes.
    TooLong,
    /// The input, or what stands before its line `---`, is no workload.
    Refused(Refused),
    /// No line is `---`: a report has to stand at this line, the one behind the last.
    NoReport(u64),
    /// What stands behind the line `---` is no report; the first line that cannot stand in its place, from 1.
    ReportForm(u64),
    /// The output met a fault; a prefix of the text was written.
    WriteFault,
    /// There was no memory.
    Memory,
}

impl From<WordsError> for Failure {
    ghost use Rattle.std.specs.Prelude.{◌≡◌};
    ghost use Rattle.dstm_cli.specs.Failure.{of_words};

    ghost from_gives = { λ error failure. failure ≡ of_words error };

    fn from(error: WordsError) -> Failure {
        match error {
            WordsError::Usage => Failure::Usage,
            WordsError::Memory(_) => Failure::Memory,
        }
    }
}

impl From<ReadError> for Failure {
    ghost use Rattle.std.specs.Prelude.{◌≡◌};
    ghost use Rattle.dstm_cli.specs.Failure.{of_read};

    ghost from_gives = { λ error failure. failure ≡ of_read error };

    fn from(error: ReadError) -> Failure {
        match error {
            ReadError::Fault => Failure::ReadFault,
            ReadError::TooLong => Failure::TooLong,
            ReadError::Memory(_) => Failure::Memory,
        }
    }
}

impl From<WorkloadError> for Failure {
    ghost use Rattle.std.specs.Prelude.{◌≡◌};
    ghost use Rattle.dstm_cli.specs.Failure.{of_workload};

    ghost from_gives = { λ error failure. failure ≡ of_workload error };

    fn from(error: WorkloadError) -> Failure {
        match error {
            WorkloadError::Refused(refused) => Failure::Refused(refused),
            WorkloadError::Memory(_) => Failure::Memory,
        }
    }
}

impl From<ReportError> for Failure {
    ghost use Rattle.std.specs.Prelude.{◌≡◌};
    ghost use Rattle.dstm_cli.specs.Failure.{of_report};

    ghost from_gives = { λ error failure. failure ≡ of_report error };

    fn from(error: ReportError) -> Failure {
        match error {
            ReportError::Form(line) => Failure::ReportForm(line),
            ReportError::Memory(_) => Failure::Memory,
        }
    }
}

impl From<AllocError> for Failure {
    ghost use Rattle.std.specs.Prelude.{◌≡◌};
    ghost use Rattle.dstm_cli.specs.declared.failure.Failure.TheVariants as failures;

    ghost from_gives = { λ error failure. failure ≡ failures.Memory };

    fn from(_: AllocError) -> Failure {
        Failure::Memory
    }
}

impl From<WriteFault> for Failure {
    ghost use Rattle.std.specs.Prelude.{◌≡◌};
    ghost use Rattle.dstm_cli.specs.declared.failure.Failure.TheVariants as failures;

    ghost from_gives = { λ error failure. failure ≡ failures.WriteFault };

    fn from(_: WriteFault) -> Failure {
        Failure::WriteFault
    }
}

impl Failure {
    /// The status with which the program ends.
    pub fn status(self) -> u8
        ensures { result ≡ status_of self }
    {
        match self {
            Failure::Usage => 1,
            Failure::TooLong
            | Failure::Refused(_)
            | Failure::NoReport(_)
            | Failure::ReportForm(_) => 2,
            Failure::ReadFault => 3,
            Failure::WriteFault => 4,
            Failure::Memory => 5,
        }
    }

    /// Writes one line that says what failed. It takes no memory.
    pub fn write_to<E: Sink>(self, err: &mut E) -> Result<(), WriteFault>
        ensures taken { OnOk result (Appends (E.taken err.old) (E.taken err.new) (message_of self)) }
        ensures no_fault { OnOk result (E.faults err.new ≡ E.faults err.old) }
        ensures part { OnErr result (AppendsPart (E.taken err.old) (E.taken err.new) (message_of self)) }
        ensures fault { OnErr result (Rises (E.faults err.old) (E.faults err.new)) }
    {
        match self {
            Failure::Usage => write_all(err, b"usage: dstm run, check, gen or demo\n"),
            Failure::ReadFault => write_all(err, b"dstm: read fault\n"),
            Failure::TooLong => write_all(err, b"dstm: input too long\n"),
            Failure::Refused(refused) => write_numbered(
                err,
                b"dstm: line ",
                refused.line,
                refused.why.text(),
            ),
            Failure::NoReport(line) => write_numbered(err, b"dstm: line ", line, b"no report"),
            Failure::ReportForm(line) => write_numbered(err, b"dstm: report line ", line, b"form"),
            Failure::WriteFault => write_all(err, b"dstm: write fault\n"),
            Failure::Memory => write_all(err, b"dstm: out of memory\n"),
        }
    }
}

// Writes a line: a text, a number, a colon and a reason.
fn write_numbered<E: Sink>(
    err: &mut E,
    text: &[u8],
    number: u64,
    reason: &[u8],
) -> Result<(), WriteFault>
    ensures taken { OnOk result (Appends (E.taken err.old) (E.taken err.new)
        (numbered text.now number reason.now)) }
    ensures no_fault { OnOk result (E.faults err.new ≡ E.faults err.old) }
    ensures part { OnErr result (AppendsPart (E.taken err.old) (E.taken err.new)
        (numbered text.now number reason.now)) }
    ensures fault { OnErr result (Rises (E.faults err.old) (E.faults err.new)) }
{
    let mut buffer = Buffer::new();
    write_all(err, text)?;
    write_all(err, buffer.format(number).as_bytes())?;
    write_all(err, b": ")?;
    write_all(err, reason)?;
    write_all(err, b"\n")
}
