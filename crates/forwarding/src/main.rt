// Forwarding and screening: two feature boxes of two customers, which keep their data in one store, over the teaching plan. Each line of standard input is an operation of a box; it is printed again with its answer.
// What is provisioned stands in data.rt: begin there to make a feature of your own. docs/DATA.md tells the example.
#![tactic(auto)]

mod data;

use console::{EachLine, Word};
use refusal::Refusal;
use std::io;
use store_script::{FeatureBox, Stored};

const NAMES: [&str; 9] = [
    "forwarding",
    "screening",
    "read",
    "write",
    "delete",
    "targets",
    "screened",
    "names",
    "tallies",
];

// ---- the words of a line: BOX ADDRESS OPERATION RELATION KEY, and of a write a NUMBER

// As many as there are where the word is no relation's name.
fn relation_at(words: &[Word], i: usize) -> u32 {
    let is_here = |name: &&str| words.get(i) == Some(&Word::Name(name));
    let at = data::RELATIONS.iter().position(is_here);
    at.unwrap_or(data::RELATIONS.len()) as u32
}

// The name at a place; an empty one where there is none.
fn name_at<'a>(words: &[Word<'a>], i: usize) -> &'a [u8] {
    match words.get(i) {
        Some(Word::Name(name)) => name.as_bytes(),
        _ => b"",
    }
}

// The number at a place; 0 where there is none, or one that is too large for a word. (Each program has its own answer for what is missing.)
fn number_at(words: &[Word], i: usize) -> u32 {
    match words.get(i) {
        Some(Word::Number(n)) => u32::try_from(*n).unwrap_or(0),
        _ => 0,
    }
}

fn box_of(words: &[Word]) -> FeatureBox {
    FeatureBox {
        of_type: match name_at(words, 0) {
            b"forwarding" => data::FORWARDING,
            b"screening" => data::SCREENING,
            _ => 0,
        },
        address: number_at(words, 1),
    }
}

// A number that was read, or nothing where a row was changed; no answer where the words ask for no operation.
fn step(stored: &mut Stored, words: &[Word]) -> Option<Result<Option<u32>, Refusal>> {
    if !console::known(words, &NAMES) {
        return None;
    }
    let by = box_of(words);
    let relation = relation_at(words, 3);
    let key = number_at(words, 4);
    match name_at(words, 2) {
        b"read" => Some(stored.read(by, relation, key).map(Some)),
        b"write" => {
            let done = stored.write(by, relation, key, number_at(words, 5));
            Some(done.map(|()| None))
        }
        b"delete" => Some(stored.delete(by, relation, key).map(|()| None)),
        _ => None,
    }
}

// A remark and an empty line are printed as they are; a line with another word is answered `unknown`.
fn one_line(rt: &(impl Print + AllocGlobal), stored: &mut Stored, text: &[u8]) -> io::Result<()> {
    rt.write_all(text)?;
    if console::is_remark(text) {
        return println!(rt);
    }
    let small = console::in_small_letters(rt.alloc(), text)?;
    let words = console::words_of(rt.alloc(), &small)?;
    match step(stored, &words) {
        Some(Ok(Some(n))) => println!(rt; ": {n}"),
        Some(Ok(None)) => println!(rt; ": done"),
        Some(Err(r)) => println!(rt; ": {r}"),
        None => println!(rt; ": unknown"),
    }
}

// What is stored goes on from line to line.
#[derive(Drop)]
struct Script<'a, R> {
    rt: &'a R,
    stored: Stored,
}

impl<R: Print + AllocGlobal> EachLine for Script<'_, R> {
    fn take_line(&mut self, text: &[u8]) -> io::Result<()> {
        one_line(self.rt, &mut self.stored, text)
    }
}

// Beside `main`, which the check does not cover where it holds a `Script`.
fn all_lines(rt: &(impl Input + Print + AllocGlobal)) -> io::Result<()> {
    let mut script = Script {
        rt,
        stored: data::provisioned(),
    };
    console::for_each_line(
        &mut rt.reader(),
        console::MOST_LINES,
        &mut [0; 200],
        &mut script,
    )
}

fn main(rt: HostRuntime) -> io::Result<()> {
    all_lines(&rt)
}
