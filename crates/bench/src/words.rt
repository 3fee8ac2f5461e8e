// What the words of the command line mean.
ghost use Rattle.std.specs.Prelude.{◌<◌, ◌≤◌};

use dstm_tables::{Engine, Manager};

/// The manager of this name.
pub fn manager_of(word: &str) -> Option<Manager> {
    match word {
        "polite" => Some(Manager::Polite),
        "karma" => Some(Manager::Karma),
        "polka" => Some(Manager::Polka),
        "greedy" => Some(Manager::Greedy),
        _ => None,
    }
}

/// TL2, or DSTM under the manager of this name.
pub fn engine_of(word: &str) -> Option<Engine> {
    match word {
        "tl2" => Some(Engine::Tl2),
        _ => Some(Engine::Dstm(manager_of(word)?)),
    }
}

/// How many threads there are to be.
pub fn threads_of(word: &str) -> u32
    ensures some { 0 < result }
    ensures few { result ≤ 4 }
{
    match word {
        "4" => 4,
        "2" => 2,
        _ => 1,
    }
}
