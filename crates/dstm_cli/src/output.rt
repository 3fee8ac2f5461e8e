ghost use Rattle.std.specs.Prelude.{◌≡◌, ◌≤◌, ◌<◌, ◌*◌, ◌++◌, [], length, sum, false, true, Some, Ok, Err, IfOk};
ghost use Rattle.std.specs.Prelude.{◌≢◌, ◌⊎◌, All, IfErr, OnOk};
ghost use Rattle.std.specs.Io.KnownBytes.{Keeps};
ghost use Rattle.dstm_command.specs.CommandLine.{IsSmall, IsSmallCommand};
ghost use Rattle.dstm_workload.specs.declared.workload.Workload.{Workload as TheWorkload};
ghost use Rattle.dstm_workload.specs.Workload.{IsValidWorkload};
ghost use Rattle.dstm_workload.specs.Writing.{text_of_workload};
ghost use Rattle.dstm_report.specs.declared.report.Report.{Report as TheReport};
ghost use Rattle.dstm_report.specs.Lawful.{IsLawful, Tells};
ghost use Rattle.dstm_records.specs.Records.{AreFirstRounds};
ghost use Rattle.dstm_records.specs.Running.{added};
ghost use Rattle.dstm_cli.specs.Command.{Answers, HasJudged, HasRun, IsDemo, IsReportOf, Refuses, WereClosed};
ghost use Rattle.dstm_cli.specs.Command.{check_input, default_options, demo_text, reads_input, run_input};
ghost use Rattle.dstm_cli.specs.Command.{verdict_status, verdict_text, workload_for};
ghost use Rattle.dstm_cli.specs.Ending.{Fails};

use crate::failure::Failure;
use crate::heap::keep_freed_memory;
use crate::input::{CHECK_LIMIT, RUN_LIMIT, read_case, read_input};
use dstm_command::{Command, GenSpec};
use dstm_core::Manager;
use dstm_crew::{Engine, Gate, Options, Rounds, run_crew, run_crew_packed};
use dstm_gen::generate;
use dstm_io::Source;
use dstm_report::{Report, Verdict, balances_stay, check, lawful_is_held, render_packed};
use dstm_text::push_decimal;
use dstm_workload::{Workload, read_workload, write_workload};
use std::alloc::{AllocError, Global};
use std::thread::Threads;

// What a command writes, and the status with which the program then ends.
#[derive(Debug, Drop)]
pub(crate) struct Output {
    pub text: Vec<u8>,
    pub status: u8,
}

impl Output {
    fn done(text: Vec<u8>) -> Output
        ensures text { result.text.items ≡ text.items }
        ensures status { result.status ≡ 0 }
    {
        Output { text, status: 0 }
    }
}

// Does what a command asks for, but for the writing.
pub(crate) fn output_of<R: Threads + Sync, S: Source, G: Gate + Sync>(
    rt: &R,
    alloc: Global,
    command: &Command,
    source: &mut S,
    gate: &G,
    rounds: &mut Rounds,
) -> Result<Output, Failure>
    requires { IsSmallCommand command.now }
    ensures output { IfOk result (λ output. Answers (Some command.now) (S.left source.old, S.left source.new)
        (added rounds.old rounds.new) output.text.items output.status) }
    ensures failed { IfErr result (λ failure. (failure ≡ Failure.Memory)
        ⊎ ((reads_input (Some command.now) ≡ true) × Fails (Refuses (Some command.now))
        (S.left source.old) (S.faults source.old) (S.faults source.new) failure)) }
    ensures no_fault { result ≢ Err Failure.ReadFault → S.faults source.new ≡ S.faults source.old }
    ensures unread { reads_input (Some command.now) ≡ false →
        Keeps (S.left source.old) (S.left source.new) × (S.faults source.new ≡ S.faults source.old) }
    ensures behind { rounds.new ≡ rounds.old ++ added rounds.old rounds.new }
    ensures closed { WereClosed (Some command.now) (S.left source.old, S.left source.new) (added rounds.old rounds.new) }
    ensures unplayed { IfErr result (λ failure. failure ≢ Failure.Memory → added rounds.old rounds.new ≡ []) }
{
    match command {
        Command::Run(options) => Ok(Output::done(run(rt, alloc, options, source, gate, rounds)?)),
        Command::Check => judge(alloc, source),
        Command::Gen(spec) => Ok(Output::done(workload_text(alloc, spec)?)),
        Command::Demo(spec) => Ok(Output::done(demo_text(rt, alloc, spec, gate, rounds)?)),
    }
}

// The text of a report on the workload that a source holds.
fn run<R: Threads + Sync, S: Source, G: Gate + Sync>(
    rt: &R,
    alloc: Global,
    options: &Options,
    source: &mut S,
    gate: &G,
    rounds: &mut Rounds,
) -> Result<Vec<u8>, Failure>
    ensures text { IfOk result (λ text. HasRun options.now (S.left source.old, S.left source.new)
        (added rounds.old rounds.new) text.items) }
    ensures failed { IfErr result (Fails (λ input failure. run_input input ≡ Err failure)
        (S.left source.old) (S.faults source.old) (S.faults source.new)) }
    ensures no_fault { result ≢ Err Failure.ReadFault → S.faults source.new ≡ S.faults source.old }
    ensures behind { rounds.new ≡ rounds.old ++ added rounds.old rounds.new }
    ensures closed { WereClosed (Some (Command.Run options.now)) (S.left source.old, S.left source.new)
        (added rounds.old rounds.new) }
    ensures unplayed { IfErr result (λ failure. failure ≢ Failure.Memory → added rounds.old rounds.new ≡ []) }
{
    keep_freed_memory(alloc);
    let input = read_input(alloc, source, RUN_LIMIT)?;
    run_text(rt, alloc, input, options, gate, rounds)
}

// The same of a text. Where its workload stands is given back before the crew runs, which takes its pages.
fn run_text<R: Threads + Sync, G: Gate + Sync>(
    rt: &R,
    alloc: Global,
    input: Vec<u8>,
    options: &Options,
    gate: &G,
    rounds: &mut Rounds,
) -> Result<Vec<u8>, Failure>
    requires { length input.items ≤ RUN_LIMIT }
    ensures text { IfOk result (λ text. (workload : TheWorkload)
        × (((run_input input.items ≡ Ok workload) × IsValidWorkload workload)
        × IsReportOf workload options.now (added rounds.old rounds.new) text.items)) }
    ensures failed { IfErr result (Fails (λ text failure. run_input text ≡ Err failure) (Some input.items) 0 0) }
    ensures behind { rounds.new ≡ rounds.old ++ added rounds.old rounds.new }
    ensures closed { (added rounds.old rounds.new ≡ []) ⊎ ((workload : TheWorkload)
        × (AreFirstRounds workload options.now (added rounds.old rounds.new)
        × ((run_input input.items ≡ Ok workload) × IsValidWorkload workload))) }
    ensures unplayed { IfErr result (λ failure. failure ≢ Failure.Memory → added rounds.old rounds.new ≡ []) }
{
    let workload = read_workload(alloc, &input)?;
    drop(input);
    let report = run_crew_packed(rt, alloc, &workload, options, gate, rounds)?;
    lawful_is_held();
    Ok(render_packed(alloc, &report)?)
}

// The verdict on the report that a source holds behind its workload.
fn judge<S: Source>(alloc: Global, source: &mut S) -> Result<Output, Failure>
    ensures verdict { IfOk result (λ output.
        HasJudged (S.left source.old, S.left source.new) output.text.items output.status) }
    ensures failed { IfErr result (Fails (λ input failure. check_input input ≡ Err failure)
        (S.left source.old) (S.faults source.old) (S.faults source.new)) }
    ensures no_fault { result ≢ Err Failure.ReadFault → S.faults source.new ≡ S.faults source.old }
{
    let input = read_input(alloc, source, CHECK_LIMIT)?;
    let verdict = verdict_on(alloc, &input)?;
    let mut text = Vec::new(alloc);
    push_verdict(&mut text, verdict)?;
    Ok(Output {
        text,
        status: status_of(verdict),
    })
}

fn verdict_on(alloc: Global, input: &[u8]) -> Result<Verdict, Failure>
    requires { length input.now ≤ CHECK_LIMIT }
    ensures verdict { IfOk result (λ verdict.
        (case : TheWorkload × TheReport) × ((check_input input.now ≡ Ok case) × Tells case.0 case.1 verdict)) }
    ensures failed { IfErr result (Fails (λ text failure. check_input text ≡ Err failure) (Some input.now) 0 0) }
{
    let case = read_case(alloc, input)?;
    Ok(check(alloc, &case.workload, &case.report)?)
}

fn status_of(verdict: Verdict) -> u8
    ensures { result ≡ verdict_status verdict }
{
    match verdict {
        Verdict::Lawful => 0,
        Verdict::NotLawful(_) => 6,
    }
}

fn push_verdict(text: &mut Vec<u8>, verdict: Verdict) -> Result<(), AllocError>
    ensures { OnOk result (text.new.items ≡ text.old.items ++ verdict_text verdict) }
{
    match verdict {
        Verdict::Lawful => text.extend_from_slice(b"lawful\n"),
        Verdict::NotLawful(line) => {
            text.extend_from_slice(b"not lawful: line ")?;
            push_decimal(text, line)?;
            text.push(b'\n')?;
            Ok(())
        }
    }
}

// The text of a generated workload.
fn workload_text(alloc: Global, spec: &GenSpec) -> Result<Vec<u8>, AllocError>
    requires { IsSmall spec.now }
    ensures { IfOk result (λ text. text.items ≡ text_of_workload (workload_for spec.now)) }
{
    let workload = generate(alloc, spec.seed, spec.count, spec.workers)?;
    write_workload(alloc, &workload)
}

// Runs a generated workload and checks the report.
fn demo_text<R: Threads + Sync, G: Gate + Sync>(
    rt: &R,
    alloc: Global,
    spec: &GenSpec,
    gate: &G,
    rounds: &mut Rounds,
) -> Result<Vec<u8>, AllocError>
    requires { IsSmall spec.now }
    ensures text { IfOk result (λ text. IsDemo spec.now (added rounds.old rounds.new) text.items) }
    ensures behind { rounds.new ≡ rounds.old ++ added rounds.old rounds.new }
    ensures closed { AreFirstRounds (workload_for spec.now) default_options (added rounds.old rounds.new) }
{
    let options = Options {
        manager: Manager::Polka,
        seed: 0,
        all_write: false,
        release: false,
        engine: Engine::Dstm,
    };
    let workload = generate(alloc, spec.seed, spec.count, spec.workers)?;
    keep_freed_memory(alloc);
    let report = run_crew(rt, alloc, &workload, &options, gate, rounds)?;
    let verdict = check(alloc, &workload, &report)?;
    let total = total(&workload, &report);
    tell(alloc, report.count, total, verdict)
}

fn tell(alloc: Global, count: u64, total: u64, verdict: Verdict) -> Result<Vec<u8>, AllocError>
    ensures { IfOk result (λ text. text.items ≡ demo_text count total verdict) }
{
    let mut text = Vec::from_slice(alloc, b"transactions ")?;
    push_decimal(&mut text, count)?;
    text.extend_from_slice(b"\ntotal ")?;
    push_decimal(&mut text, total)?;
    text.push(b'\n')?;
    push_verdict(&mut text, verdict)?;
    Ok(text)
}

// The sum of the balances that a report tells, which is that of the balances that the workload's accounts were opened with.
fn total(workload: &Workload, report: &Report) -> u64
    requires valid { IsValidWorkload workload.now }
    requires lawful { IsLawful workload.now report.now }
    ensures { result ≡ workload.now.layout.accounts * workload.now.layout.opening }
{
    balances_stay();
    match &report.bank {
        Some(bank) => bank.as_slice().iter().sum(),
        None => 0,
    }
}
