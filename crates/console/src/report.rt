// A day's report: a line for each record of an event file, and what the day came to.
ghost use Rattle.std.specs.Prelude.{◌≡◌, IfOk, Some};
ghost use Rattle.console.specs.Text.{letter_of, line_text, summary_text};
ghost use Rattle.console.specs.Report.{LineOf, Goes, Reported};

use book::memory::Memory;
use day::faults::Fault;
use day::stages::Day;
use market::{Answer, Summary};
use records::RECORD_LENGTH;
use std::alloc::{AllocError, Global};
use std::fmt;

// What came of a record: its place from 1, its kind letter (`?` for bytes that are no record), and the answer or the fault.
#[derive(Drop)]
pub struct Line {
    pub place: u32,
    pub letter: char,
    pub outcome: Result<Answer, Fault>,
}

impl fmt::Display for Line {
    ghost output = { λ l. Some (line_text l) };

    fn fmt<W: fmt::Write>(&self, f: &mut fmt::Formatter<W>) -> fmt::Result {
        let place = self.place;
        let letter = self.letter;
        match self.outcome {
            Ok(Answer::Made | Answer::Rung | Answer::Closed) => write!(f, "{place} {letter} ok"),
            Ok(Answer::Withdrawn) => write!(f, "{place} {letter} ok {}", 0u32),
            Ok(Answer::Quoted { by_ask, by_bid }) => write!(
                f,
                "{place} {letter} ok {by_ask} {by_bid}"
            ),
            Ok(Answer::Ordered { number, filled }) => write!(
                f,
                "{place} {letter} ok {number} {filled}"
            ),
            Ok(
                Answer::Cancelled { shares: count }
                | Answer::Clicked { shares: count }
                | Answer::Stepped { late: count },
            ) => write!(f, "{place} {letter} ok {count}"),
            Err(fault) => write!(f, "{place} {letter} refused {fault}"),
        }
    }
}

// What a closed day came to, as a line.
#[derive(Drop)]
pub struct SummaryLine {
    pub summary: Summary,
}

impl fmt::Display for SummaryLine {
    ghost output = { λ l. Some (summary_text l.summary) };

    fn fmt<W: fmt::Write>(&self, f: &mut fmt::Formatter<W>) -> fmt::Result {
        let Summary {
            shares,
            value,
            average,
        } = self.summary;
        write!(f, "summary {shares} {value} {average}")
    }
}

// The kind letter of a record, `?` for bytes that are none.
fn letter(bytes: &[u8], outcome: &Result<Answer, Fault>) -> char
    ensures { result ≡ letter_of bytes.now outcome.now }
{
    match outcome {
        Err(Fault::Reader { .. }) => '?',
        _ => bytes.first().map_or('?', |kind| char::from(*kind)),
    }
}

// Hands a record to the day.
fn take(day: &mut Day, memory: &mut Memory, bytes: &[u8]) -> Line
    ensures { LineOf bytes.now day.old day.new memory.old memory.new result }
{
    let outcome = day.take(memory, bytes);
    let letter = letter(bytes, &outcome);
    Line {
        place: day.place(),
        letter,
        outcome,
    }
}

// Hands a file to a day, 24 bytes at a time. Gives the lines.
fn lines_of(
    heap: Global,
    day: &mut Day,
    memory: &mut Memory,
    file: &[u8],
) -> Result<Vec<Line>, AllocError>
    ensures { IfOk result (λ lines. Goes file.now day.old memory.old lines.items day.new memory.new) }
{
    let mut lines = Vec::new(heap);
    for piece in file.chunks(RECORD_LENGTH) {
        lines.push(take(day, memory, piece))?;
    }
    Ok(lines)
}

// The lines of a file, and what its day came to where it was closed.
#[derive(Drop)]
pub struct Report {
    pub lines: Vec<Line>,
    pub summary: Option<Summary>,
}

// Runs a file as a day in the memory that is lent.
pub fn run_file(heap: Global, memory: &mut Memory, file: &[u8]) -> Result<Report, AllocError>
    ensures { IfOk result (λ it. Reported file.now memory.old memory.new it.lines.items it.summary) }
{
    let mut day = Day::new();
    let lines = lines_of(heap, &mut day, memory, file);
    let summary = day.end();
    lines.map(|lines| Report { lines, summary })
}
