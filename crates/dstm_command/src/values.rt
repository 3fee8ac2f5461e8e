ghost use Rattle.std.specs.Prelude.{◌≡◌, ◌≤◌, IfSome};
ghost use Rattle.dstm_command.specs.CommandLine.{engine_of, manager_of, number_in, seed_of};

use dstm_core::Manager;
use dstm_options::Engine;
use dstm_text::decimal;

pub(crate) fn read_manager(text: &str) -> Option<Manager>
    ensures { result ≡ manager_of text.now }
{
    match text {
        "polite" => Some(Manager::Polite),
        "karma" => Some(Manager::Karma),
        "polka" => Some(Manager::Polka),
        "greedy" => Some(Manager::Greedy),
        _ => None,
    }
}

pub(crate) fn read_engine(text: &str) -> Option<Engine>
    ensures { result ≡ engine_of text.now }
{
    match text {
        "dstm" => Some(Engine::Dstm),
        "tl2" => Some(Engine::Tl2),
        _ => None,
    }
}

pub(crate) fn read_seed(text: &str) -> Option<u64>
    ensures { result ≡ seed_of text.now }
{
    decimal(text.as_bytes()).ok()
}

// The plain decimal from `least` to `most` that a text spells.
pub(crate) fn read_number(text: &str, least: u32, most: u32) -> Option<u32>
    ensures read { result ≡ number_in least most text.now }
    ensures least { IfSome result (λ number. least ≤ number) }
    ensures most { IfSome result (λ number. number ≤ most) }
{
    let number = u32::try_from(read_seed(text)?).ok()?;
    (least <= number && number <= most).then_some(number)
}
