// Tries operational data on the steps of a script, a line a step; `stdin` is the script, and its head says how a line is written. A step that comes otherwise than its line expects is printed, then how many came as
// expected. A refusal is told with the word `changed` where it changed a word.
#![tactic(auto)]

use console::{Answering, Word, says};
use std::alloc::{AllocError, Global};
use std::io;
use store_script::{FeatureBox, Row, Stored};

const NAMES: [&str; 26] = [
    "fresh",
    "relation",
    "type",
    "pair",
    "places",
    "place",
    "box",
    "feature",
    "customers",
    "provides",
    "address",
    "customer",
    "to",
    "mark",
    "owner",
    "key",
    "number",
    "at",
    "reads",
    "writes",
    "deletes",
    "set",
    "done",
    "changed",
    "unknown",
    "exists",
];

// The number after a name; 0 where there is none, or one that is too large for a word. (Each program has its own answer for what is missing.)
fn number(asked: &[Word], name: &str) -> u32 {
    let number = console::number_after(asked, name).unwrap_or(0);
    u32::try_from(number).unwrap_or(0)
}

// ---- what a step does

fn of_box(alloc: Global, stored: &mut Stored, asked: &[Word]) -> Result<String, AllocError> {
    let before = stored.rows;
    let by = FeatureBox {
        of_type: u8::try_from(number(asked, "box")).unwrap_or(255),
        address: number(asked, "at"),
    };
    let key = number(asked, "key");
    let answer = if says(asked, "reads") {
        stored.read(by, number(asked, "reads"), key).map(Some)
    } else if says(asked, "writes") {
        let relation = number(asked, "writes");
        let done = stored.write(by, relation, key, number(asked, "number"));
        done.map(|()| None)
    } else {
        let done = stored.delete(by, number(asked, "deletes"), key);
        done.map(|()| None)
    };
    match answer {
        Ok(Some(n)) => format!(in alloc; "number {n}"),
        Ok(None) => format!(in alloc; "done"),
        Err(r) if stored.rows != before => format!(in alloc; "{r} changed"),
        Err(r) => format!(in alloc; "{r}"),
    }
}

fn set_type(stored: &mut Stored, asked: &[Word]) {
    if says(asked, "exists") {
        stored.add_type(number(asked, "type"));
    } else {
        stored.set_feature(number(asked, "type"), number(asked, "provides"));
    }
}

fn fill_rows(stored: &mut Stored, asked: &[Word]) {
    let first = Row {
        mark: number(asked, "mark"),
        owner: number(asked, "owner"),
        key: number(asked, "key"),
        number: number(asked, "number"),
    };
    stored.fill_rows(number(asked, "places"), number(asked, "to"), first);
}

fn step(alloc: Global, stored: &mut Stored, asked: &[Word]) -> Result<String, AllocError> {
    if !console::known(asked, &NAMES) {
        return format!(in alloc; "unknown");
    }
    let first = match asked.first() {
        Some(Word::Name(name)) => name.as_bytes(),
        _ => b"",
    };
    match first {
        b"fresh" => *stored = Stored::new(),
        b"relation" => stored.set_relation(
            number(asked, "relation"),
            number(asked, "feature"),
            number(asked, "customers"),
        ),
        b"type" => set_type(stored, asked),
        b"pair" => stored.set_pair(
            number(asked, "pair"),
            number(asked, "address"),
            number(asked, "customer"),
        ),
        b"places" => fill_rows(stored, asked),
        b"place" => return format!(in alloc; "{}", stored.row_at(number(asked, "place"))),
        b"box" => return of_box(alloc, stored, asked),
        _ => return format!(in alloc; "unknown"),
    }
    format!(in alloc; "set")
}

// What the steps so far have stored.
#[derive(Drop)]
struct Script {
    stored: Stored,
}

impl Answering for Script {
    fn answer(&mut self, alloc: Global, asked: &[Word]) -> Result<String, AllocError> {
        step(alloc, &mut self.stored, asked)
    }
}

fn main(rt: HostRuntime) -> io::Result<()> {
    let mut script = Script {
        stored: Stored::new(),
    };
    let tally = console::trials(&rt, &mut [0; 400], &mut script)?;
    // A script that may go on past the last line read is not summed up.
    if tally.lines < console::MOST_LINES {
        println!(rt; "{tally}")?;
    }
    Ok(())
}
