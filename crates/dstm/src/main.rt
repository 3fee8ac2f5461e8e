//! `dstm`: runs workloads of transactions and reports what they did.
#![tactic(auto)]

use dstm_cli::{Failure, dstm};
use dstm_crew::{OpenGate, Rounds};
use dstm_io::{StdSink, StdSource};
use std::io::ErrorKind;
use std::process::ExitCode;
use std::{env, io};

fn main(rt: HostRuntime) -> ExitCode {
    let mut err = StdSink::make(rt.stderr());
    let words: io::Result<Vec<String>> = env::args(&rt).and_then(|words| Ok(words.collect(
        rt.alloc(),
    )?));
    let status = match words {
        Ok(words) => {
            let mut source = StdSource::make(rt.stdin());
            let mut out = StdSink::make(rt.stdout());
            let mut rounds = Rounds::make(rt.alloc());
            dstm(
                &rt,
                rt.alloc(),
                &words,
                &mut source,
                &mut out,
                &mut err,
                &OpenGate,
                &mut rounds,
            )
        }
        Err(error) => {
            let failure = match error.kind() {
                ErrorKind::OutOfMemory => Failure::Memory,
                _ => Failure::Usage,
            };
            let _ = failure.write_to(&mut err);
            failure.status()
        }
    };
    ExitCode::from(status)
}
