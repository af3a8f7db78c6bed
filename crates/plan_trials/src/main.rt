// Tries the reading, the writing and the test of plans on the cases of a table, a line a case; `stdin` is the table, and its head says how a line is written. A case that comes otherwise than its
// line expects is printed, then how many came as expected.
#![tactic(auto)]

mod draft;
mod file;

use console::{EachLine, Tally, Word, before};
use draft::Draft;
use file::{File, UNWRITTEN};
use plan::Plan;
use std::alloc::{AllocError, Global};
use std::fmt::Write;
use std::io;

// ---- what is answered, in words

// `right` if two texts are the same; else the place at which they begin to differ.
fn push_if_same(told: &mut String, right: &str, a: &[u8], b: &[u8]) -> Result<(), AllocError> {
    if a == b {
        return told.push_str(right);
    }
    let differ = a.iter().zip(b.iter()).position(|(x, y)| x != y);
    let at = differ.unwrap_or(a.len().min(b.len()));
    write!(told, " wrong at {at}")
}

fn check_told(alloc: Global, plan: Plan) -> Result<String, AllocError> {
    match soundness::check(plan) {
        Ok(()) => format!(in alloc; "sound"),
        Err(r) => format!(in alloc; "{r}"),
    }
}

// A plan that was read must be sound in memory too, and have these bytes as its file.
fn read_told(alloc: Global, bytes: &[u8]) -> Result<String, AllocError> {
    match planread::read(bytes) {
        Ok(plan) => {
            let mut told = check_told(alloc, plan)?;
            let again = File::of(alloc, &plan)?;
            push_if_same(&mut told, "", again.first(again.len), bytes)?;
            Ok(told)
        }
        Err(r) => format!(in alloc; "{r}"),
    }
}

// Every byte of the room is looked at, also those past the part that was lent.
fn write_told(alloc: Global, draft: &Draft, file: &File) -> Result<String, AllocError> {
    let unwritten = [UNWRITTEN; draft::ROOM];
    let mut room = unwritten;
    let lent = draft.room.min(room.len());
    match planwrite::write(draft.plan, &mut room[..lent]) {
        Ok(len) => {
            let mut told = format!(in alloc; "{len} bytes")?;
            push_if_same(&mut told, " rest as it was", &room, &file.room)?;
            Ok(told)
        }
        Err(r) => {
            let mut told = format!(in alloc; "{r}")?;
            push_if_same(&mut told, " as it was", &room, &unwritten)?;
            Ok(told)
        }
    }
}

// ---- each cut of a file

// Where the field begins in which the first n bytes end, if those one byte shorter end in the field at `at`: only the length of that field is asked.
fn field_at(file: &File, at: usize, n: usize) -> usize {
    let size = u16::from_be_bytes([file.byte(at.wrapping_add(1)), file.byte(at.wrapping_add(2))]);
    let next = at.saturating_add(3 + usize::from(size));
    if at < draft::ROOM && next <= n {
        next
    } else {
        at
    }
}

// The file is read without its last byte, without its last two, and so on; each is a case.
fn try_cuts(
    rt: &(impl Print + AllocGlobal),
    tally: &mut Tally,
    text: &[u8],
    words: &[Word],
    file: &File,
) -> io::Result<()> {
    let mut at = 0;
    for n in 0..file.len {
        at = field_at(file, at, n);
        let mut told = read_told(rt.alloc(), file.first(n))?;
        if told == format!(in rt.alloc(); "refused 20 at {at}")? {
            told = format!(in rt.alloc(); "refused 20 at its field")?;
        } else {
            write!(told, " first {n}")?;
        }
        tally.judge(rt, text, words, told.as_str())?;
    }
    Ok(())
}

// ---- the cases

fn try_words(
    rt: &(impl Print + AllocGlobal),
    tally: &mut Tally,
    text: &[u8],
    words: &[Word],
) -> io::Result<()> {
    let alloc = rt.alloc();
    let asked = before(words, Word::Equals);
    let told = match (draft::draft_of(asked), asked.first()) {
        (Some(draft), Some(Word::Name(verb))) => {
            let mut file = File::of(alloc, &draft.plan)?;
            file.edit(asked);
            match verb.as_bytes() {
                b"each" => return try_cuts(rt, tally, text, words, &file),
                // A file that is made has at most 256 subscribers: it can't be had of a plan that counts more.
                b"read" if draft.plan.count <= 256 => read_told(alloc, file.first(file.len))?,
                b"write" => write_told(alloc, &draft, &file)?,
                b"check" => check_told(alloc, draft.plan)?,
                _ => format!(in alloc; "unclear")?,
            }
        }
        _ => format!(in alloc; "unclear")?,
    };
    tally.judge(rt, text, words, told.as_str())
}

fn one_line(rt: &(impl Print + AllocGlobal), tally: &mut Tally, text: &[u8]) -> io::Result<()> {
    tally.next_line();
    if console::is_remark(text) {
        return Ok(());
    }
    let small = console::in_small_letters(rt.alloc(), text)?;
    let words = console::words_of(rt.alloc(), &small)?;
    try_words(rt, tally, text, &words)
}

// The tally goes on from line to line.
#[derive(Drop)]
struct Table<'a, R> {
    rt: &'a R,
    tally: Tally,
}

impl<R: Print + AllocGlobal> EachLine for Table<'_, R> {
    fn take_line(&mut self, text: &[u8]) -> io::Result<()> {
        one_line(self.rt, &mut self.tally, text)
    }
}

// Beside `main`, which the check does not cover where it holds a `Table`.
fn all_lines(rt: &(impl Input + Print + AllocGlobal)) -> io::Result<()> {
    let mut table = Table {
        rt,
        tally: Tally::new(),
    };
    console::for_each_line(
        &mut rt.reader(),
        console::MOST_LINES,
        &mut [0; 1000],
        &mut table,
    )?;
    println!(rt; "{}", table.tally)
}

fn main(rt: HostRuntime) -> io::Result<()> {
    all_lines(&rt)
}
