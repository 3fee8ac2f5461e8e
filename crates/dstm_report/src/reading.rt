ghost use Rattle.std.specs.Prelude.{◌≡◌, ◌≤◌, ◌<◌, ◌^◌, ◌↔◌, ◌⊎◌, ◌++◌, ℕ, List, [], ◌∷◌, vec_len, vec_capacity, Some, IfSome, Ok, Err, IfOk, IfErr, option_map};
ghost use Rattle.dstm_text.specs.Answers.{GivesBy};
ghost use Rattle.dstm_text.specs.Lines.{lines_of, pieces, space};
ghost use Rattle.dstm_report.specs.declared.report.Report.{Report as TheReport};
ghost use Rattle.dstm_report.specs.Text.{report_text};
ghost use Rattle.dstm_report.specs.Answers.{Fails, Gives, TellsLine};
ghost use Rattle.dstm_report.specs.Parser.{after_word, number_in, number_at, at_end, pair_of, place_at, known_reply};
ghost use Rattle.dstm_report.specs.Parser.{reply_of, further_reply, replies_of, row_of, numbers_of, item_of, items_of};
ghost use Rattle.dstm_report.specs.Parser.{count_of, part_of, rank, can_follow, add_part, add_line, or_line, finished};
ghost use Rattle.dstm_report.specs.Parser.{header_of, is_version, blank, parsed};
ghost use Rattle.dstm_report.specs.Reading.{report_of, IsHeld, AreLinesOf, AreRefusedAt};

use crate::draft::{COLON, DOT, Draft, MAX_NUMBER, MAX_REPLIES, MAX_WORKER, Part};
use crate::error::ReportError;
use crate::report::{Report, Row, Rows};
use dstm_model::{Item, Items, Numbers, Replies, Reply};
use dstm_text::{Lines, Pieces, decimal, one_spelling};
use std::alloc::{AllocError, Global};

/// Reads a report of a version. What is read is the report of whose text these are the lines; where they are those of
/// none that the version can hold, the error tells the first line that cannot stand in its place.
pub fn read_report(alloc: Global, version: u32, bytes: &[u8]) -> Result<Report, ReportError>
    ensures read { IfOk result (λ report. AreLinesOf version report (lines_of bytes.now)) }
    ensures refused { IfErr result (TellsLine (AreRefusedAt version (lines_of bytes.now))) }

    // The same, as a function of the lines.
    ensures exact { Gives result (report_of version (lines_of bytes.now)) }
{
    one_spelling();
    parse(alloc, version, bytes)
}

fn parse(alloc: Global, version: u32, bytes: &[u8]) -> Result<Report, ReportError>
    ensures { Gives result (parsed version (lines_of bytes.now)) }
{
    let mut lines = Lines::new(bytes);
    let Some(header) = lines.next() else {
        return Err(ReportError::Form(1));
    };
    if !is_header(version, header) {
        return Err(ReportError::Form(1));
    }
    let mut draft = blank(alloc, version);
    let mut line = 2;
    while let Some(text) = lines.next() {
        draft.add_line(alloc, line, text)?;
        line += 1;
    }
    draft.finish(line)
}

/// The law of printing and reading: a report that its version can hold is read from its text.
pub fn read_back()
    ensures { (report : TheReport) → IsHeld report →
        report_of report.version (lines_of (report_text report)) ≡ Ok report }
{
    one_spelling();
}

/// The law of reading: lines are read as a report of a version exactly where they are those of the report's
/// text, it is of that version, and the version can hold it.
pub fn read_where_printed()
    ensures { (version : ℕ) (report : TheReport) (lines : List (List ℕ)) →
        (report_of version lines ≡ Ok report) ↔ AreLinesOf version report lines }
{
    one_spelling();
}

/// The law of refusals: lines are refused as a report of a version at the first of them up to which they begin no
/// report's text, and behind the last one where they begin such a text and are none.
pub fn refused_where_none_begins()
    ensures { (version : ℕ) (lines : List (List ℕ)) (line : ℕ) → version < 2 ^ 64 →
        (report_of version lines ≡ Err line) ↔ AreRefusedAt version lines line }
{
    one_spelling();
}

/// The law of one reading: lines are those of one report of a version, or they are refused at one line, and never both.
pub fn one_reading()
    ensures either { (version : ℕ) (lines : List (List ℕ)) → version < 2 ^ 64 →
        ((report : TheReport) × AreLinesOf version report lines) ⊎ ((line : ℕ) × AreRefusedAt version lines line) }
    ensures apart { (version : ℕ) (lines : List (List ℕ)) (report : TheReport) (line : ℕ) →
        AreLinesOf version report lines → ¬ (AreRefusedAt version lines line) }
    ensures report { (version : ℕ) (lines : List (List ℕ)) (one other : TheReport) →
        AreLinesOf version one lines → AreLinesOf version other lines → one ≡ other }
    ensures line { (version : ℕ) (lines : List (List ℕ)) (one other : ℕ) →
        AreRefusedAt version lines one → AreRefusedAt version lines other → one ≡ other }
{
    one_spelling();
}

fn is_header(version: u32, text: &[u8]) -> bool
    ensures { result ≡ is_version version (header_of (pieces space text.now)) }
{
    header(text) == Some(u64::from(version))
}

// `dstm report VERSION`
#[tactic(auto, unfolding(crate::specs::Parser::header_of))]
fn header(text: &[u8]) -> Option<u64>
    ensures { result ≡ header_of (pieces space text.now) }
{
    let mut words = Pieces::new(text, b' ');
    word(&mut words, b"dstm")?;
    word(&mut words, b"report")?;
    let version = number(&mut words, MAX_NUMBER)?;
    end(&mut words)?;
    Some(version)
}

fn blank(alloc: Global, version: u32) -> Draft
    ensures { result ≡ blank version }
{
    Draft {
        part: Part::Rows,
        report: Report {
            version,
            rows: Rows::from_vec(Vec::new(alloc)),
            bank: None,
            list: None,
            tree: None,
            count: 0,
        },
    }
}

impl Draft {
    // Puts a line behind those read.
    fn add_line(&mut self, alloc: Global, line: u64, text: &[u8]) -> Result<(), ReportError>
        ensures { GivesBy Fails (λ _. self.new) result (or_line line (add_line text.now self.old)) }
    {
        let mut words = Pieces::new(text, b' ');
        let first = words.next().ok_or(ReportError::Form(line))?;
        let part = part_of(first);
        if !can_follow(self.part, part) {
            return Err(ReportError::Form(line));
        }
        let report = &mut self.report;
        match part {
            Part::Rows => add_row(&mut report.rows, report.version, line, first, words)?,
            Part::Bank => report.bank = Some(numbers(alloc, line, words)?),
            Part::List => report.list = Some(numbers(alloc, line, words)?),
            Part::Tree => report.tree = Some(items(alloc, report.version, line, words)?),
            Part::End => report.count = count(&mut words).ok_or(ReportError::Form(line))?,
        }
        self.part = part;
        Ok(())
    }

    fn finish(self, line: u64) -> Result<Report, ReportError>
        ensures { Gives result (or_line line (finished self)) }
    {
        match self.part {
            Part::End => Ok(self.report),
            _ => Err(ReportError::Form(line)),
        }
    }
}

fn part_of(word: &[u8]) -> Part
    ensures { result ≡ part_of word.now }
{
    match word {
        b"bank" => Part::Bank,
        b"list" => Part::List,
        b"tree" => Part::Tree,
        b"end" => Part::End,
        _ => Part::Rows,
    }
}

fn can_follow(last: Part, next: Part) -> bool
    ensures { result ≡ can_follow last next }
{
    match next {
        Part::Rows => last == Part::Rows,
        _ => rank(last) < rank(next),
    }
}

fn rank(part: Part) -> u8
    ensures { result ≡ rank part }
{
    part as u8
}

// Puts the row that these words spell behind the others.
fn add_row(
    rows: &mut Rows,
    version: u32,
    line: u64,
    first: &[u8],
    words: Pieces<'_>,
) -> Result<(), ReportError>
    ensures { GivesBy Fails (λ _. rows.new) result
        (or_line line (option_map (λ row. rows.old ++ row ∷ []) (row_of version (first.now ∷ words.entry)))) }
{
    rows.items.reserve(1)?;
    match add_reserved(&mut rows.items, version, first, words) {
        Some(()) => Ok(()),
        None => Err(ReportError::Form(line)),
    }
}

// Puts the row that these words spell behind the others, where there is room. It is read where it stands.
fn add_reserved(rows: &mut Vec<Row>, version: u32, first: &[u8], words: Pieces<'_>) -> Option<()>
    requires { vec_len rows.old < vec_capacity rows.old }
    ensures { option_map (λ row. rows.old.items ++ row ∷ []) (row_of version (first.now ∷ words.entry))
        ≡ option_map (λ _. rows.new.items) result }
{
    let last = rows.len();
    rows.push_reserved(Row::blank());
    match fill(&mut rows[last], version, first, words) {
        Some(()) => Some(()),
        None => None,
    }
}

impl Row {
    // A row that nothing was read of.
    fn blank() -> Row
        ensures { result.replies ≡ [] }
    {
        Row {
            line: 0,
            worker: 0,
            round: 0,
            number: 0,
            replies: Replies::new(),
        }
    }
}

// `LINE WORKER ROUND.NUMBER REPLY ; REPLY ..`, of which the first word was taken.
#[tactic(auto, unfolding(crate::specs::Parser::row_of))]
fn fill(row: &mut Row, version: u32, first: &[u8], mut words: Pieces<'_>) -> Option<()>
    requires { row.old.replies ≡ [] }
    ensures { row_of version (first.now ∷ words.entry) ≡ option_map (λ _. row.new) result }
{
    row.line = number_in(MAX_NUMBER, first)?;
    row.worker = number(&mut words, MAX_WORKER)? as u32;
    let (round, number) = place(&mut words)?;
    row.round = round;
    row.number = number;
    fill_replies(&mut row.replies, version, words)
}

fn fill_replies(replies: &mut Replies, version: u32, mut words: Pieces<'_>) -> Option<()>
    requires { replies.old ≡ [] }
    ensures { replies_of version words.entry ≡ option_map (λ _. replies.new) result }
{
    replies.push(reply(version, words.next()?)?);
    while let Some(mark) = words.next() {
        let reply = further_reply(version, mark, words.next()?)?;
        if replies.as_slice().len() == MAX_REPLIES {
            return None;
        }
        replies.push(reply);
    }
    Some(())
}

fn further_reply(version: u32, mark: &[u8], word: &[u8]) -> Option<Reply>
    ensures { result ≡ further_reply version mark.now word.now }
{
    match mark {
        [b';'] => reply(version, word),
        _ => None,
    }
}

#[inline(always)]
fn reply(version: u32, word: &[u8]) -> Option<Reply>
    ensures { result ≡ reply_of version word.now }
{
    match known_reply(version, word) {
        Some(reply) => Some(reply),
        None => Some(Reply::Number(number_in(MAX_NUMBER, word)?)),
    }
}

// The reply that a word stands for.
#[inline(always)]
fn known_reply(version: u32, word: &[u8]) -> Option<Reply>
    ensures { result ≡ known_reply version word.now }
{
    match word {
        b"ok" => Some(Reply::Moved),
        b"poor" => Some(Reply::Poor),
        b"true" => Some(Reply::Yes),
        b"false" => Some(Reply::No),
        b"full" => Some(Reply::Full),
        b"none" if version >= 2 => Some(Reply::Absent),
        b"never" if version >= 3 => Some(Reply::Never),
        _ => None,
    }
}

fn numbers(alloc: Global, line: u64, mut words: Pieces<'_>) -> Result<Numbers, ReportError>
    ensures { Gives result (or_line line (numbers_of words.entry)) }
{
    let mut numbers = Vec::new(alloc);
    while let Some(word) = words.next() {
        numbers.push(number_in(MAX_NUMBER, word).ok_or(ReportError::Form(line))?)?;
    }
    Ok(Numbers::from_vec(numbers))
}

fn items(
    alloc: Global,
    version: u32,
    line: u64,
    mut words: Pieces<'_>,
) -> Result<Items, ReportError>
    ensures { Gives result (or_line line (items_of version words.entry)) }
{
    let mut items = Vec::new(alloc);
    while let Some(word) = words.next() {
        items.push(item(version, word).ok_or(ReportError::Form(line))?)?;
    }
    Ok(Items::from_vec(items))
}

// Version 1 tells the keys alone.
fn item(version: u32, word: &[u8]) -> Option<Item>
    ensures { result ≡ item_of version word.now }
{
    let (key, value) = if version == 1 {
        (number_in(MAX_NUMBER, word)?, 0)
    } else {
        pair(COLON, word)?
    };
    Some(Item { key, value })
}

#[tactic(auto, unfolding(crate::specs::Parser::count_of))]
fn count(words: &mut Pieces<'_>) -> Option<u64>
    ensures { result ≡ count_of words.old }
{
    let count = number(words, MAX_NUMBER)?;
    end(words)?;
    Some(count)
}

// Takes the next word, which has to be this one.
fn word(words: &mut Pieces<'_>, text: &[u8]) -> Option<()>
    ensures { after_word text.now words.old ≡ option_map (λ _. words.new) result }
{
    if words.next()? == text {
        Some(())
    } else {
        None
    }
}

// Takes the next word, which has to be a number of this range.
#[inline(always)]
fn number(words: &mut Pieces<'_>, most: u64) -> Option<u64>
    ensures read { number_at most words.old ≡ option_map (λ n. (n, words.new)) result }
    ensures most { IfSome result (λ n. n ≤ most) }
{
    number_in(most, words.next()?)
}

// Takes the next word, which has to be `ROUND.NUMBER`.
fn place(words: &mut Pieces<'_>) -> Option<(u64, u64)>
    ensures { place_at words.old ≡ option_map (λ place. (place, words.new)) result }
{
    pair(DOT, words.next()?)
}

// Sees that no word is left.
fn end(words: &mut Pieces<'_>) -> Option<()>
    ensures { at_end words.old ≡ option_map (λ _. words.new) result }
{
    match words.next() {
        None => Some(()),
        Some(_) => None,
    }
}

#[inline(always)]
fn pair(separator: u8, word: &[u8]) -> Option<(u64, u64)>
    ensures { result ≡ pair_of separator word.now }
{
    let mut pieces = Pieces::new(word, separator);
    let first = number_in(MAX_NUMBER, pieces.next()?)?;
    let second = number_in(MAX_NUMBER, pieces.next()?)?;
    end(&mut pieces)?;
    Some((first, second))
}

#[inline(always)]
fn number_in(most: u64, word: &[u8]) -> Option<u64>
    ensures read { result ≡ number_in most word.now }
    ensures most { IfSome result (λ n. n ≤ most) }
{
    decimal(word).ok().filter(|n| *n <= most)
}
