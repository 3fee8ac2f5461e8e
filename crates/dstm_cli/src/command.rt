ghost use Rattle.std.specs.Prelude.{List, [], ℕ, Err, ◌≡◌, ◌≢◌, ◌⊎◌, ◌≤◌, ◌++◌, false, All, Some, None, IfSome, IfOk};
ghost use Rattle.std.specs.Io.KnownBytes.{Appends, Keeps};
ghost use Rattle.dstm_io.specs.Count.{Rises};
ghost use Rattle.dstm_io.specs.Sink.{AppendsPart};
ghost use Rattle.dstm_records.specs.Running.{added};
ghost use Rattle.dstm_tables.specs.Tells.{SightsAgree};
ghost use Rattle.dstm_cli.specs.declared.failure.Failure.{Failure as TheFailure};
ghost use Rattle.dstm_cli.specs.Failure.{message_of, status_of, TakesOrFaults};
ghost use Rattle.dstm_cli.specs.Command.{asked, reads_input, Refuses, Answers, CanAnswer, WereClosed};
ghost use Rattle.dstm_cli.specs.Ending.{EndsAs};

use crate::failure::Failure;
use crate::output::output_of;
use dstm_command::read_words;
use dstm_crew::{Gate, Rounds};
use dstm_io::{Sink, Source, write_all};
use std::alloc::Global;
use std::thread::Threads;

/// Runs the command that `words` ask for; the first word is the program's name. What fails is told on
/// `err` in one line, and by the status that is answered:
///
/// - 0: the whole text was written to `out`;
/// - 1: the words are no command;
/// - 2: the input is too long, or a line of it is refused;
/// - 3: `source` met a fault;
/// - 4: `out` met a fault, and took a prefix of the text;
/// - 5: there was no memory; nothing was written to `out`;
/// - 6: `check` found the report not lawful, and wrote its verdict to `out`.
///
/// `run` reads a workload and writes the report of a run; `check` reads a workload, the line `---` and a
/// report, and writes whether it is lawful; `gen` writes a generated workload; `demo` runs a generated
/// workload, checks the report, and writes how that went.
///
/// The records of the rounds that it has closed are put behind `rounds`, in their order; where memory runs out, those of the
/// first ones. In round 0 each worker passes the gate, of which no clause speaks.
pub fn dstm<R: Threads + Sync, S: Source, K: Sink, E: Sink, G: Gate + Sync>(
    rt: &R,
    alloc: Global,
    words: &[String],
    source: &mut S,
    out: &mut K,
    err: &mut E,
    gate: &G,
    rounds: &mut Rounds,
) -> u8
    ensures statuses { result ≤ 6 }

    // 0 and 6: `out` took the text that the command answers, whole. The records that were added stand for its report.
    ensures done { (result ≡ 0) ⊎ (result ≡ 6) → (text : List ℕ) × (
        Answers (asked words.now) (S.left source.old, S.left source.new) (added rounds.old rounds.new) text result
        × Appends (K.taken out.old) (K.taken out.new) text) }

    // Whatever happens, the records that were there stay. Those that were added are of the first rounds of this command, one
    // behind the other, and in each of their logs whatever an attempt has seen are values of one moment.
    ensures behind { rounds.new ≡ rounds.old ++ added rounds.old rounds.new }
    ensures closed { WereClosed (asked words.now) (S.left source.old, S.left source.new) (added rounds.old rounds.new) }
    ensures sights { All SightsAgree (added rounds.old rounds.new) }

    // 1 to 3: no record was added.
    ensures unplayed { (result ≡ 1) ⊎ (result ≡ 2) ⊎ (result ≡ 3) → added rounds.old rounds.new ≡ [] }

    // 1: only where the words are no command.
    ensures usage { result ≡ 1 → asked words.now ≡ None }
    ensures unread { reads_input (asked words.now) ≡ false →
        Keeps (S.left source.old) (S.left source.new) × (S.faults source.new ≡ S.faults source.old) }

    // 3 and 4: exactly where a count of faults rose.
    ensures no_read_fault { result ≢ 3 → S.faults source.new ≡ S.faults source.old }
    ensures no_write_fault { result ≢ 4 → K.faults out.new ≡ K.faults out.old }
    ensures read_fault { result ≡ 3 → Rises (S.faults source.old) (S.faults source.new) }
    ensures write_fault { result ≡ 4 → Rises (K.faults out.old) (K.faults out.new) }
    ensures part { result ≡ 4 → (text : List ℕ) × ((status : ℕ) × (
        Answers (asked words.now) (S.left source.old, S.left source.new) (added rounds.old rounds.new) text status
        × AppendsPart (K.taken out.old) (K.taken out.new) text)) }

    // The other statuses leave `out` as it was.
    ensures unwritten { result ≢ 0 → result ≢ 4 → result ≢ 6 → Keeps (K.taken out.old) (K.taken out.new) }

    // 1 to 5: `err` took the line of one failure with this status, or met a fault and took a part of that line.
    // With 2 it is the failure for which the command refuses the input.
    ensures told { result ≢ 0 → result ≢ 6 → (failure : TheFailure) × ((status_of failure ≡ result)
        × (result ≡ 2 → IfSome (S.left source.old) (λ input. Refuses (asked words.now) input failure))
        × TakesOrFaults (E.taken err.old) (E.taken err.new) (E.faults err.old) (E.faults err.new)
        (message_of failure)) }
    ensures silent { (result ≡ 0) ⊎ (result ≡ 6) →
        Keeps (E.taken err.old) (E.taken err.new) × (E.faults err.new ≡ E.faults err.old) }

    // Unless memory runs out or a fault is counted, no command is answered by 1, what is refused by 2, and the
    // rest by 0 or 6.
    ensures no_command { asked words.now ≡ None → (result ≡ 1) ⊎ (result ≡ 5) }
    ensures refuses { IfSome (S.left source.old) (λ input. (failure : TheFailure) →
        Refuses (asked words.now) input failure →
        (result ≡ 2) ⊎ (result ≡ 5) ⊎ Rises (S.faults source.old) (S.faults source.new)) }
    ensures complete { CanAnswer (asked words.now) (S.left source.old) →
        (result ≡ 0) ⊎ (result ≡ 6) ⊎ (result ≡ 5)
        ⊎ Rises (S.faults source.old) (S.faults source.new) ⊎ Rises (K.faults out.old) (K.faults out.new) }
{
    match obey(rt, alloc, words, source, out, gate, rounds) {
        Ok(status) => status,
        Err(failure) => {
            let _ = failure.write_to(err);
            failure.status()
        }
    }
}

// The same, but for what is told on `err`.
fn obey<R: Threads + Sync, S: Source, K: Sink, G: Gate + Sync>(
    rt: &R,
    alloc: Global,
    words: &[String],
    source: &mut S,
    out: &mut K,
    gate: &G,
    rounds: &mut Rounds,
) -> Result<u8, Failure>
    ensures ending { EndsAs (asked words.now) (record {
      left_before = S.left source.old;
      left_after = S.left source.new;
      read_faults_before = S.faults source.old;
      read_faults_after = S.faults source.new;
      taken_before = K.taken out.old;
      taken_after = K.taken out.new;
      write_faults_before = K.faults out.old;
      write_faults_after = K.faults out.new;
      records = added rounds.old rounds.new;
    }) result }
    ensures no_read_fault { result ≢ Err TheFailure.ReadFault → S.faults source.new ≡ S.faults source.old }
    ensures no_write_fault { result ≢ Err TheFailure.WriteFault → K.faults out.new ≡ K.faults out.old }
    ensures written { IfOk result (λ status. (status ≡ 0) ⊎ (status ≡ 6)) }
    ensures unread { reads_input (asked words.now) ≡ false →
        Keeps (S.left source.old) (S.left source.new) × (S.faults source.new ≡ S.faults source.old) }
    ensures behind { rounds.new ≡ rounds.old ++ added rounds.old rounds.new }
    ensures closed { WereClosed (asked words.now) (S.left source.old, S.left source.new) (added rounds.old rounds.new) }
{
    let command = read_words(alloc, words)?;
    let output = output_of(rt, alloc, &command, source, gate, rounds)?;
    write_all(out, &output.text)?;
    Ok(output.status)
}
