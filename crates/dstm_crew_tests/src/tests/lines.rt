use crate::tests::calls::{expect_so, words_of};
use dstm_command::{Command, GenSpec, WordsError, read_words};
use dstm_core::Manager;
use dstm_options::{Engine, Options};
use std::alloc::{AllocError, Global};
use std::test::Fail;

fn read_line(alloc: Global, line: &str) -> Result<Result<Command, WordsError>, AllocError> {
    let words = words_of(alloc, line)?;
    Ok(read_words(alloc, words.as_slice()))
}

fn is_command(answer: &Result<Command, WordsError>, want: &Command) -> bool {
    matches!(answer, Ok(command) if command == want)
}

#[test]
fn command_lines(rt: HostRuntime) -> Result<(), Fail> {
    let accepted = [
        ("dstm run", run(Manager::Polka, 0, false, false)),
        (
            "dstm run --all-write --seed 18446744073709551615 --manager polite",
            run(Manager::Polite, u64::MAX, true, false),
        ),
        (
            "dstm run --seed=7 --manager greedy",
            run(Manager::Greedy, 7, false, false),
        ),
        (
            "dstm run --seed 7 --all-write --release --manager=karma",
            run(Manager::Karma, 7, true, true),
        ),
        (
            "dstm run --engine dstm --manager=karma",
            run(Manager::Karma, 0, false, false),
        ),
        ("dstm run --seed 7 --engine tl2", run_by_tl2(7)),
        ("dstm check", Command::Check),
        ("dstm gen 7 0 1", Command::Gen(spec(7, 0, 1))),
        ("dstm demo 7 20000 8", Command::Demo(spec(7, 20_000, 8))),
    ];
    for (line, want) in accepted {
        let answer = read_line(rt.alloc(), line)?;
        expect_so(&rt, is_command(&answer, &want), line, "accepted");
    }
    Ok(())
}

#[test]
fn other_lines(rt: HostRuntime) -> Result<(), Fail> {
    let refused = [
        "dstm",
        "dstm --help",
        "dstm run --",
        "dstm run --help",
        "dstm run extra",
        "dstm run --manager tabu",
        "dstm run --manager --seed 1",
        "dstm run --seed 07",
        "dstm run --seed=",
        "dstm run --seed -1",
        "dstm run --seed 18446744073709551616",
        "dstm run --seed 1 --seed 1",
        "dstm run --all-write --all-write",
        "dstm run --release=false",
        "dstm run --engine",
        "dstm run --engine tl3",
        "dstm run --engine tl2 --engine tl2",
        "dstm run --engine tl2 --manager karma",
        "dstm run --engine tl2 --release",
        "dstm run --all-write --engine tl2",
        "dstm check --engine tl2",
        "dstm check --release",
        "dstm check extra",
        "dstm gen 7 20001 1",
        "dstm gen 7 0 0",
        "dstm gen 7 0",
        "dstm gen 7 0 1 1",
        "dstm gen 7 00 1",
    ];
    for line in refused {
        let answer = read_line(rt.alloc(), line)?;
        expect_so(
            &rt,
            matches!(answer, Err(WordsError::Usage)),
            line,
            "refused",
        );
    }
    Ok(())
}

fn run(manager: Manager, seed: u64, all_write: bool, release: bool) -> Command {
    Command::Run(Options {
        manager,
        seed,
        all_write,
        release,
        engine: Engine::Dstm,
    })
}

fn run_by_tl2(seed: u64) -> Command {
    Command::Run(Options {
        manager: Manager::Polka,
        seed,
        all_write: false,
        release: false,
        engine: Engine::Tl2,
    })
}

fn spec(seed: u64, count: u32, workers: u32) -> GenSpec {
    GenSpec {
        seed,
        count,
        workers,
    }
}
