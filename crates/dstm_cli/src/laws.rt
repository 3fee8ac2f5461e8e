ghost use Rattle.std.specs.Prelude.{◌≡◌, ◌≤◌, length, Ok};
ghost use Rattle.dstm_command.specs.declared.command.GenSpec.{GenSpec};
ghost use Rattle.dstm_command.specs.CommandLine.{IsSmall};
ghost use Rattle.dstm_workload.specs.declared.workload.Workload.{Workload};
ghost use Rattle.dstm_workload.specs.Workload.{IsValidWorkload};
ghost use Rattle.dstm_workload.specs.Writing.{text_of_workload, as_written};
ghost use Rattle.dstm_report.specs.declared.report.Report.{Report};
ghost use Rattle.dstm_report.specs.Reading.{IsHeld};
ghost use Rattle.dstm_cli.specs.Command.{run_input, check_input, workload_for, case_text};

/// The law of generated workloads: `run` takes what `gen` writes, and reads it as the workload that was
/// generated.
pub fn run_takes_generated()
    ensures { (spec : GenSpec) → IsSmall spec →
        run_input (text_of_workload (workload_for spec)) ≡ Ok (workload_for spec) }
{
    dstm_workload::read_back();
    dstm_gen::lines_of_the_text();
    dstm_gen::short_text();
}

/// The law of reports: where the text of a valid workload, the line `---` and the text of a report that its
/// version can hold are no longer than what `check` reads, it reads them as the workload, with the lines of
/// its text, and the report.
pub fn check_takes_reports()
    ensures { (workload : Workload) (report : Report) → IsValidWorkload workload → IsHeld report →
        report.version ≡ workload.version → length (case_text workload report) ≤ 8388608 →
        check_input (case_text workload report) ≡ Ok (as_written workload, report) }
{
    dstm_workload::read_back();
    dstm_workload::before_a_mark();
    dstm_report::read_back();
}
