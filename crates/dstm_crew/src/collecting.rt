ghost use Rattle.std.specs.Prelude.{◌≡◌, ◌<◌, ◌≤◌, ◌+◌, ◌++◌, ◌∷◌, [], List, length, IfNone, IfSome, Some, replicate, slice_index, ℕ};
ghost use Rattle.std.specs.Bool.{OnTrue};
ghost use Rattle.dstm_jobs.specs.Tables.{Round};
ghost use Rattle.dstm_options.specs.declared.options.Options.{Options as Choices};
ghost use Rattle.dstm_report.specs.declared.report.Row.{Row};
ghost use Rattle.dstm_report.specs.Turns.{job_at};
ghost use Rattle.dstm_crew.specs.Collecting.{AreRunBy, AreSpent, CanCollect, HasCollected, IsAhead, IsFirst, IsFit, IsLeast, IsRowOf, heads, lesser_of, number_at, number_in};

use crate::share::Share;
use dstm_report::{PackedRows, Turns};
use dstm_workload::Workload;

// The place of the number that comes next, and what none of the numbers at other places is below.
#[derive(Clone, Copy)]
struct Lead {
    place: usize,
    bound: u64,
}

/// Adds a row for all that was done of the shares, in the order of the numbers: the share with the least next number
/// goes next, and goes on as long as its number is not above those of the others, which are looked at only then. `next`
/// has a 0 for each share, and `numbers` room for a number of each.
pub(crate) fn collect(
    workload: &Workload,
    round: u64,
    shares: &[Share],
    next: Vec<usize>,
    numbers: Vec<Option<u64>>,
    turns: &mut Turns<'_>,
    rows: &mut PackedRows,
)
    requires can { CanCollect workload.now shares.now rows.old.items turns.old }
    requires room { length rows.old.items + length turns.old.left ≤ rows.old.room }
    requires next { next.items ≡ replicate (length shares.now) 0 }
    requires numbers { length numbers.items ≡ length shares.now }
    ensures room { length rows.new.items + length turns.new.left ≤ rows.new.room }
    ensures collected { (options : Choices) (r : Round) (callers : List ℕ) →
        AreRunBy workload.now options r shares.now callers →
        HasCollected workload.now options round r shares.now callers rows.old.items rows.new.items turns.new }
{
    let mut next = next;
    let mut numbers = note_numbers(shares, &next, numbers);
    let mut before = Lead { place: 0, bound: 0 };
    while let Some(lead) = lead_of(&numbers, before) {
        before = lead;
        let least = lead.place;
        let share = &shares[least];
        let place = next[least];
        push_row(workload, round, share, place, rows);
        turns.pass(share.worker);
        next[least] = place + 1;
        numbers[least] = number_of(share, place + 1);
    }
}

// The next number of each share. There is room for them.
fn note_numbers(shares: &[Share], next: &[usize], numbers: Vec<Option<u64>>) -> Vec<Option<u64>>
    requires next { length next.now ≡ length shares.now }
    requires numbers { length numbers.items ≡ length shares.now }
    ensures { result.items ≡ heads shares.now next.now }
{
    let mut numbers = numbers;
    for place in 0..shares.len() {
        numbers[place] = number_of(&shares[place], next[place]);
    }
    numbers
}

// The place of the least of these numbers. Where that is the one from before, the others are not looked at.
fn lead_of(numbers: &[Option<u64>], before: Lead) -> Option<Lead>
    requires ahead { IsAhead numbers.now before }
    ensures some { IfSome result (λ lead. IsLeast numbers.now lead.place) }
    ensures ahead { IfSome result (IsAhead numbers.now) }
    ensures within { IfSome result (λ lead. lead.place < length numbers.now) }
    ensures none { IfNone result (AreSpent numbers.now) }
{
    if still_leads(numbers, before) {
        return Some(before);
    }
    least_of(numbers)
}

// Whether the number at the lead's place is not above its bound.
fn still_leads(numbers: &[Option<u64>], lead: Lead) -> bool
    ensures { OnTrue result ((n : ℕ) × ((number_in numbers.now lead.place ≡ Some n) × (n ≤ lead.bound))) }
{
    match numbers.get(lead.place) {
        Some(Some(number)) => *number <= lead.bound,
        _ => false,
    }
}

// The place of the least of these numbers, by looking at all.
fn least_of(numbers: &[Option<u64>]) -> Option<Lead>
    ensures some { IfSome result (λ lead. IsLeast numbers.now lead.place) }
    ensures ahead { IfSome result (IsAhead numbers.now) }
    ensures within { IfSome result (λ lead. lead.place < length numbers.now) }
    ensures none { IfNone result (AreSpent numbers.now) }
{
    let mut least = first_of(numbers)?;
    let mut bound = u64::MAX;
    for place in least.0 + 1..numbers.len() {
        if let Some(number) = numbers[place] {
            bound = bound.min(least.1.max(number));
            least = lesser(least, place, number);
        }
    }
    Some(Lead {
        place: least.0,
        bound,
    })
}

// The first place that has a number, and that number.
fn first_of(numbers: &[Option<u64>]) -> Option<(usize, u64)>
    ensures first { IfSome result (IsFirst numbers.now) }
    ensures within { IfSome result (λ found. found.0 < length numbers.now) }
    ensures none { IfNone result (AreSpent numbers.now) }
{
    for place in 0..numbers.len() {
        if let Some(number) = numbers[place] {
            return Some((place, number));
        }
    }
    None
}

// The place and the number that were found before, or these where the number is less. The processor need not guess which.
fn lesser(found: (usize, u64), place: usize, number: u64) -> (usize, u64)
    ensures { result ≡ lesser_of found place number }
{
    if found.1 <= number {
        found
    } else {
        (place, number)
    }
}

// The number of what stands at a place of what was done.
fn number_of(share: &Share, place: usize) -> Option<u64>
    ensures { result ≡ number_at share.now place }
{
    share.done.number(place)
}

// Adds the row of what stands at a place of what was done.
fn push_row(workload: &Workload, round: u64, share: &Share, place: usize, rows: &mut PackedRows)
    requires done { place < length share.now.done.items }
    requires fit { IsFit workload.now share.now }
    requires room { length rows.old.items < rows.old.room }
    ensures row { (row : Row) × ((rows.new.items ≡ rows.old.items ++ row ∷ []) × IsRowOf workload.now round share.now place row) }
    ensures room { rows.new.room ≡ rows.old.room }
{
    let line = line_at(workload, share, place);
    let number = number_done(share, place);
    rows.push(line, share.worker, round, number, share.done.replies(place));
}

// The line of the job that was done at a place.
fn line_at(workload: &Workload, share: &Share, place: usize) -> u64
    requires done { place < length share.now.done.items }
    requires fit { IsFit workload.now share.now }
    ensures { result ≡ (job_at workload.now.jobs (slice_index share.now.places.items place)).line }
{
    share.done.line(place)
}

// The number of what was done at a place.
fn number_done(share: &Share, place: usize) -> u64
    requires { place < length share.now.done.items }
    ensures { Some result ≡ number_at share.now place }
{
    share.done.number(place).unwrap()
}
