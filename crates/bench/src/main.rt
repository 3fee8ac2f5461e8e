//! `bench`: what transactions take, by the calls of the engines and as closures over cells and maps. Without words it tells
//! how to use it.
#![tactic(auto)]

mod cells;
mod draws;
mod engine;
mod map;
mod scale;
mod spans;
mod starve;
mod words;

use std::env;

fn main(rt: HostRuntime) -> anyhow::Result<()> {
    let words: Vec<String> = env::args(&rt)?.collect(rt.alloc())?;
    let alloc = rt.alloc();
    let told = match words.as_slice() {
        [_, part] => part.as_str() == "cells" && cells::tell_pairs(&rt, alloc)?,
        [_, part, manager] => part.as_str() == "engine" && engine::tell(&rt, alloc, manager)?,
        [_, part, by, load, threads] => match part.as_str() {
            "cells" => cells::tell_threads(&rt, alloc, by, load, threads)?,
            "scale" => scale::tell(&rt, alloc, by, load, threads)?,
            _ => false,
        },
        [_, part, by, kind, looks, threads] => {
            part.as_str() == "map" && map::tell(&rt, alloc, by, kind, looks, threads)?
        }
        [_, part, by, what, how, count, scans] => {
            part.as_str() == "starve" && starve::tell(&rt, alloc, by, what, how, count, scans)?
        }
        _ => false,
    };
    if !told {
        println!(rt; "usage: bench engine MANAGER")?;
        println!(rt; "       bench cells")?;
        println!(rt; "       bench cells tl2|MANAGER disjoint|one|bank|reads|nothing 1|2|4")?;
        println!(rt; "       bench map tl2|MANAGER hash|ordered 90|98|100|move 1|2|4")?;
        println!(rt; "       bench scale tl2|MANAGER LOAD 1|2|4")?;
        println!(rt; "       bench starve tl2|MANAGER cells|map view|atomically COUNT SCANS")?;
        println!(rt; "managers: polite karma polka greedy")?;
        println!(rt; "loads: readers256 readers4096 tree90 tree98 tree100 lists reserve own")?;
    }
    Ok(())
}
