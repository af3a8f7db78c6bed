// The desk on every kind of line: a table on standard input, a line a case: `what the desk reads = what it lists`, under the teaching plan, held byte for byte.
//
// Of the listing a line has the hops, a comma between them: the heading and the ends of lines go without saying. In what the desk reads `<13>` is the byte 13, and `<48x99>` the byte 48, 99 times.
// `read NAME` is what the desk reads from a file of this name: there its line may end with the file, or be longer than a desk's line.
#![tactic(auto)]

use console::{EachLine, Tally};
use std::alloc::{AllocError, Global};
use std::rt::Files;
use std::{fs, io, str};

// More lines than the table has: none is read past them.
const MOST_LINES: u32 = 10_000;

// More bytes than the desk reads: those after them are left out.
const MOST_BYTES: usize = 100_000;

// ---- what the desk reads

// How far a line is spelt out: within `<..>` the byte, and how often.
#[derive(Clone, Copy)]
enum Spelling {
    Plain,
    Code(u64),
    Times(u64, u64),
}

// A number with one digit more.
fn longer(n: u64, c: u8) -> u64 {
    if n < 1_000_000 {
        n * 10 + u64::from(c % 16)
    } else {
        n
    }
}

fn put(bytes: &mut Vec<u8>, code: u64, times: u64) -> Result<(), AllocError> {
    let room = MOST_BYTES.saturating_sub(bytes.len());
    let len = bytes.len().saturating_add(room.min(times as usize));
    bytes.resize(len, (code % 256) as u8)
}

// What a text spells.
fn spelt(alloc: Global, text: &[u8]) -> Result<Vec<u8>, AllocError> {
    let mut bytes = Vec::new(alloc);
    let mut spelling = Spelling::Plain;
    for c in text {
        spelling = match (spelling, c) {
            (Spelling::Plain, b'<') => Spelling::Code(0),
            (Spelling::Plain, c) => {
                put(&mut bytes, u64::from(*c), 1)?;
                Spelling::Plain
            }
            (Spelling::Code(code), b'>') => {
                put(&mut bytes, code, 1)?;
                Spelling::Plain
            }
            (Spelling::Times(code, times), b'>') => {
                put(&mut bytes, code, times)?;
                Spelling::Plain
            }
            (Spelling::Code(code) | Spelling::Times(code, _), b'x') => Spelling::Times(code, 0),
            (Spelling::Code(code), c) => Spelling::Code(longer(code, *c)),
            (Spelling::Times(code, times), c) => Spelling::Times(code, longer(times, *c)),
        };
    }
    Ok(bytes)
}

// ---- what it answers

fn answered(alloc: Global, line: &[u8]) -> Result<Vec<u8>, AllocError> {
    let mut room = [0; 4096];
    let n = journey::desk(teaching::teaching_plan(), line, &mut room);
    Vec::from_slice(alloc, &room[..n.min(room.len())])
}

// As the program `desk` does it: of a line no more than 64 bytes are read. A folder can be opened, but an attempt to read it fails, and then there is no line.
// A file that isn't there answers nothing, which no line expects.
fn answered_file(rt: &(impl Files + AllocGlobal), name: &[u8]) -> io::Result<Vec<u8>> {
    let path = str::from_utf8(name).unwrap_or("");
    let Ok(mut file) = fs::open(rt, path) else {
        return Ok(Vec::new(rt.alloc()));
    };
    let mut line = [0; 64];
    let n = match console::read_line(&mut file, &mut line) {
        Ok(Some(n)) => n,
        _ => 0,
    };
    Ok(answered(rt.alloc(), &line[..n])?)
}

fn answered_asked(rt: &(impl Files + AllocGlobal), asked: &[u8]) -> io::Result<Vec<u8>> {
    match asked.strip_prefix(b"read ".as_slice()) {
        Some(name) => answered_file(rt, name),
        None => Ok(answered(rt.alloc(), &spelt(rt.alloc(), asked)?)?),
    }
}

// ---- what is expected

// A comma ends a line of the listing; the space after it is for the reader. A refusal stands alone; a listing begins with its heading.
fn listed(alloc: Global, expected: &[u8]) -> Result<Vec<u8>, AllocError> {
    let mut lines = Vec::new(alloc);
    if !matches!(expected.first(), None | Some(b'r')) {
        lines.extend_from_slice(b"hop box number address left\n")?;
    }
    let mut before = 0;
    for c in expected {
        match (before, c) {
            (_, b',') => lines.push(b'\n')?,
            (b',', b' ') => {}
            _ => lines.push(*c)?,
        }
        before = *c;
    }
    lines.push(b'\n')?;
    Ok(lines)
}

// ---- a case

fn try_case(
    rt: &(impl Files + Print + AllocGlobal),
    tally: &mut Tally,
    text: &[u8],
    asked: &[u8],
    expected: &[u8],
) -> io::Result<()> {
    let came = answered_asked(rt, asked)?;
    let right = came == listed(rt.alloc(), expected)?;
    tally.count(rt, text, right)?;
    if !right {
        println!(rt)?;
        rt.write_all(&came)?;
    }
    Ok(())
}

// What is asked, and what is expected: the sign `=` has a space, or another byte, on both sides.
fn parts(text: &[u8]) -> Option<(&[u8], &[u8])> {
    let sign = text.iter().position(|c| *c == b'=')?;
    let asked = text.get(..sign.checked_sub(1)?)?;
    let expected = text.get(sign.checked_add(2)?..)?;
    Some((asked, expected))
}

// A line without the sign expects nothing, and differs.
fn one_line(
    rt: &(impl Files + Print + AllocGlobal),
    tally: &mut Tally,
    text: &[u8],
) -> io::Result<()> {
    tally.next_line();
    if console::is_remark(text) {
        return Ok(());
    }
    match parts(text) {
        Some((asked, expected)) => try_case(rt, tally, text, asked, expected),
        None => tally.count(rt, text, false),
    }
}

// The tally goes on from line to line.
#[derive(Drop)]
struct Table<'a, R> {
    rt: &'a R,
    tally: Tally,
}

impl<R: Files + Print + AllocGlobal> EachLine for Table<'_, R> {
    fn take_line(&mut self, text: &[u8]) -> io::Result<()> {
        one_line(self.rt, &mut self.tally, text)
    }
}

// Beside `main`, which the check does not cover where it holds a `Table`.
fn all_lines(rt: &(impl Input + Files + Print + AllocGlobal)) -> io::Result<()> {
    let mut table = Table {
        rt,
        tally: Tally::new(),
    };
    console::for_each_line(&mut rt.reader(), MOST_LINES, &mut [0; 1000], &mut table)?;
    println!(rt; "{}", table.tally)
}

fn main(rt: HostRuntime) -> io::Result<()> {
    all_lines(&rt)
}
