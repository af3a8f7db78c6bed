// Trials of zones, of the addresses that strings embed, of the three ways to make a setup, and of routing. The table on standard input has a line for each case and says what is expected; its head
// says what a line may say. Everything that came is told in words and compared, so that nothing goes unseen: also places past a length, the count of types left, every place of what is lent.
#![tactic(auto)]

mod asked;
mod told;

use console::{Answering, Word, before, behind, says};
use std::alloc::{AllocError, Global};
use std::fmt::Write;
use std::io;

// The names that the lines of the table use; the last ones only make a line easier to read.
const NAMES: [&str; 42] = [
    "zone",
    "embeds",
    "new",
    "continued",
    "reversed",
    "route",
    "of",
    "given",
    "broken",
    "full",
    "rooms",
    "later",
    "source",
    "target",
    "region",
    "from",
    "to",
    "whole",
    "suffix",
    "empty",
    "list",
    "placing",
    "outer",
    "symbols",
    "types",
    "junk",
    "feature",
    "line",
    "trunk",
    "resource",
    "error",
    "at",
    "none",
    "zones",
    "and",
    "counted",
    "unknown",
    "by",
    "in",
    "plan",
    "stored",
    "box",
];

// ---- zones and embedded addresses

fn zone_told(alloc: Global, asked: &[Word]) -> Result<String, AllocError> {
    let mut told = String::new(alloc);
    let plan = asked::plan_of(asked);
    let address = asked::address_after(asked, "of");
    match zone::zone_for(plan, asked::region_of(asked), address) {
        Ok(zone) => told::push_zone(&mut told, &zone)?,
        Err(r) => write!(told, "{r}")?,
    }
    Ok(told)
}

fn embedded_told(alloc: Global, asked: &[Word]) -> Result<String, AllocError> {
    let string = asked::string_of(alloc, asked)?;
    match embedded::embedded_in(&string) {
        None => format!(in alloc; "none"),
        Some(a) => format!(in alloc; "{a}"),
    }
}

// ---- making

// The three ways to make a setup. An enum: as closures all three would take six arguments, of which one uses four.
#[derive(Clone, Copy)]
enum Way {
    New,
    Continued,
    Reversed,
}

fn making_told(alloc: Global, way: Way, asked: &[Word]) -> Result<String, AllocError> {
    let given = behind(asked, Word::Name("given")).unwrap_or(&[]);
    let string = asked::string_of(alloc, given)?;
    let source = asked::address_after(given, "from");
    let target = asked::address_after(given, "to");
    let asked = before(asked, Word::Name("given"));
    let plan = asked::plan_of(asked);
    let maker = asked::maker_of(asked);
    let stored = asked::setup_of(alloc, asked)?;
    let answer = match way {
        Way::New => making::new_setup(plan, maker, &string, target),
        Way::Continued => making::continued_setup(plan, maker, stored, source, &string, target),
        Way::Reversed => making::reversed_setup(plan, maker, stored, source, &string, target),
    };
    let mut told = String::new(alloc);
    match answer {
        Ok(setup) => told::push_setup(&mut told, &setup)?,
        Err(r) => write!(told, "{r}")?,
    }
    Ok(told)
}

// ---- routing

// The first places of each list are its room; the others are looked at too.
fn routing_told(alloc: Global, asked: &[Word]) -> Result<String, AllocError> {
    let plan = asked::plan_of(asked);
    let setup = asked::setup_of(alloc, asked)?;
    let mut source = asked::lent();
    let mut target = asked::lent();
    let n = asked::room(asked, "rooms");
    let m = asked::room(asked, "and");
    let answer = if says(asked, "later") {
        let later = asked::later_of(asked);
        routing::route_unless(plan, setup, later, &mut source[..n], &mut target[..m])
    } else {
        routing::route(plan, setup, &mut source[..n], &mut target[..m])
    };
    let mut told = String::new(alloc);
    match answer {
        Ok(routed) => {
            told::push_callee(&mut told, routed.callee)?;
            told::push_setup(&mut told, &routed.setup)?;
            if routed.left != routed.setup.list.len {
                write!(told, " counted {}", routed.left)?;
            }
        }
        Err(r) => write!(told, "{r}")?,
    }
    let lists = [("zones", &source), ("and", &target)];
    told::push_lent(&mut told, lists, answer.is_ok())?;
    Ok(told)
}

// ---- a case

// A line that no operation is asked by, or with a name that the table does not have, is answered by `unknown`.
fn answer(alloc: Global, asked: &[Word]) -> Result<String, AllocError> {
    let first = match asked.first() {
        Some(Word::Name(name)) if console::known(asked, &NAMES) => name.as_bytes(),
        _ => b"unknown",
    };
    match first {
        b"zone" => zone_told(alloc, asked),
        b"embeds" => embedded_told(alloc, asked),
        b"new" => making_told(alloc, Way::New, asked),
        b"continued" => making_told(alloc, Way::Continued, asked),
        b"reversed" => making_told(alloc, Way::Reversed, asked),
        b"route" => routing_told(alloc, asked),
        _ => format!(in alloc; "unknown"),
    }
}

// Each line is answered by itself: nothing is kept for the next.
#[derive(Clone, Copy)]
struct Answers;

impl Answering for Answers {
    fn answer(&mut self, alloc: Global, asked: &[Word]) -> Result<String, AllocError> {
        answer(alloc, asked)
    }
}

fn main(rt: HostRuntime) -> io::Result<()> {
    let tally = console::trials(&rt, &mut [0; 1000], &mut Answers)?;
    println!(rt; "{tally}")
}
