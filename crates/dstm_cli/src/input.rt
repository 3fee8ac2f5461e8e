ghost use Rattle.std.specs.Prelude.{◌≡◌, ◌≢◌, ◌≤◌, ◌<◌, ◌^◌, length, vec_len, Some, Ok, Err, IfOk, IfErr};
ghost use Rattle.dstm_io.specs.Source.{TakesAll};
ghost use Rattle.dstm_workload.specs.Workload.{IsValidWorkload};
ghost use Rattle.dstm_cli.specs.Command.{check_input};
ghost use Rattle.dstm_cli.specs.Ending.{Fails};

use crate::failure::Failure;
use dstm_io::{Source, read_all};
use dstm_report::{Report, read_report};
use dstm_text::{Lines, split_at_line};
use dstm_workload::{Workload, read_workload};
use std::alloc::Global;

/// The greatest number of bytes that `run` reads.
pub const RUN_LIMIT: usize = 4_194_304;

/// The greatest number of bytes that `check` reads.
pub const CHECK_LIMIT: usize = 8_388_608;

// A workload and a report on it.
#[derive(Debug, Drop)]
pub(crate) struct Case {
    pub workload: Workload,
    pub report: Report,
}

// Reads a source to its end.
pub(crate) fn read_input<S: Source>(
    alloc: Global,
    source: &mut S,
    limit: usize,
) -> Result<Vec<u8>, Failure>
    requires { limit < 2 ^ 32 }
    ensures all { IfOk result (λ input. TakesAll (S.left source.old) (S.left source.new) input.items) }
    ensures short { IfOk result (λ input. vec_len input ≤ limit) }
    ensures no_fault { result ≢ Err Failure.ReadFault → S.faults source.new ≡ S.faults source.old }
    ensures failed { IfErr result (Fails (λ input failure. (failure ≡ Failure.TooLong) × (limit < length input))
        (S.left source.old) (S.faults source.old) (S.faults source.new)) }
{
    Ok(read_all(alloc, source, limit)?)
}

// Reads a workload, the line `---`, and a report on the workload.
pub(crate) fn read_case(alloc: Global, input: &[u8]) -> Result<Case, Failure>
    requires { length input.now ≤ CHECK_LIMIT }
    ensures read { IfOk result (λ case. check_input input.now ≡ Ok (case.workload, case.report)) }
    ensures valid { IfOk result (λ case. IsValidWorkload case.workload) }
    ensures failed { IfErr result (Fails (λ text failure. check_input text ≡ Err failure) (Some input.now) 0 0) }
{
    let (before, behind) = split_at_line(input, b"---");
    let workload = read_workload(alloc, before)?;
    let Some(behind) = behind else {
        return Err(Failure::NoReport(Lines::new(input).count() + 1));
    };
    let report = read_report(alloc, workload.version, behind)?;
    Ok(Case { workload, report })
}
