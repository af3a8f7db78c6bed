// Trials of the index of a plan. The table on standard input has a line for each case and says what is expected; its head says what a line may say. After each update every place of the index and the
// plan are compared: with what they were, and with the index that is built afresh.
#![tactic(auto)]

mod plans;

use console::{Answering, Word, says};
use plan::{Plan, Region};
use std::alloc::{AllocError, Global};
use std::io;

// The names that lines use.
const NAMES: [&str; 27] = [
    "list", "update", "of", "in", "source", "target", "row", "place", "is", "back", "broken",
    "empty", "full", "done", "rows", "afresh", "other", "refused", "as", "before", "changed",
    "from", "to", "same", "unknown", "at", "plan",
];

type Index = [[u32; 257]; 64];

// ---- what a line asks

// The number after a name; one that is too large is the largest. (Each program has its own answer for what is missing.)
fn number(asked: &[Word], name: &str) -> u32 {
    let number = console::number_after(asked, name).unwrap_or(0);
    u32::try_from(number).unwrap_or(u32::MAX)
}

fn plan_of(asked: &[Word]) -> Plan {
    if says(asked, "full") {
        return plans::full();
    }
    if says(asked, "empty") {
        return plans::empty();
    }
    let mut plan = teaching::teaching_plan();
    if says(asked, "broken") {
        plan.count = 7;
    }
    plan
}

// The types after a name.
fn set_after(alloc: Global, asked: &[Word], name: &str) -> Result<u32, AllocError> {
    let types = console::run_after(alloc, asked, Word::Name(name))?;
    Ok(
        types.iter().fold(0, |set, t| {
            set | 1u32.checked_shl(u32::from(*t)).unwrap_or(0)
        }),
    )
}

// An update: the address, and its new sets.
#[derive(Clone, Copy)]
struct Update {
    address: u32,
    source: u32,
    target: u32,
}

fn update_of(alloc: Global, asked: &[Word]) -> Result<Update, AllocError> {
    Ok(Update {
        address: number(asked, "update"),
        source: set_after(alloc, asked, "source")?,
        target: set_after(alloc, asked, "target")?,
    })
}

// ---- lists

fn listed(alloc: Global, list: &[u32]) -> Result<String, AllocError> {
    let n = list.len();
    match list {
        [first, .., last] if 8 < n => format!(in alloc; "{n} from {first} to {last}"),
        _ => format!(in alloc; "{n} {list:?}"),
    }
}

fn list_told(alloc: Global, asked: &[Word], index: &Index) -> Result<String, AllocError> {
    let region = if says(asked, "target") {
        Region::Target
    } else {
        Region::Source
    };
    listed(alloc, index::look(index, region, number(asked, "of")))
}

// ---- updates

// How many rows differ.
fn rows_apart(a: &Index, b: &Index) -> usize {
    a.iter().zip(b.iter()).filter(|(x, y)| x != y).count()
}

fn is_afresh(plan: Plan, index: &Index) -> bool {
    let mut fresh = [[0; 257]; 64];
    index::build(plan, &mut fresh).is_ok() && fresh == *index
}

// There, and back to the sets that it had.
fn back_told(
    alloc: Global,
    to: Update,
    plan: Plan,
    index: &mut Index,
) -> Result<String, AllocError> {
    let was = *index;
    let old = plans::subscriber_of(plan, to.address);
    let there = index::update(plan, index, to.address, to.source, to.target).unwrap_or(plan);
    let back = index::update(there, index, to.address, old.source, old.target).unwrap_or(there);
    if *index == was && plans::same(&plan, &back) {
        format!(in alloc; "same")
    } else {
        format!(in alloc; "other")
    }
}

fn update_told(
    alloc: Global,
    to: Update,
    plan: Plan,
    index: &mut Index,
) -> Result<String, AllocError> {
    let was = *index;
    let updated = index::update(plan, index, to.address, to.source, to.target);
    let rows = rows_apart(&was, index);
    match updated {
        Err(r) => {
            if rows == 0 {
                format!(in alloc; "{r} as before")
            } else {
                format!(in alloc; "{r} changed")
            }
        }
        Ok(plan) => {
            if is_afresh(plan, index) {
                format!(in alloc; "done rows {rows} afresh")
            } else {
                format!(in alloc; "done rows {rows} other")
            }
        }
    }
}

// ---- a case

// One place of the index is another.
fn spoil(asked: &[Word], index: &mut Index) {
    let k = number(asked, "row");
    let j = number(asked, "place");
    if k < 64 && j < 257 {
        index[k as usize][j as usize] = number(asked, "is");
    }
}

fn answer(alloc: Global, asked: &[Word]) -> Result<String, AllocError> {
    if !console::known(asked, &NAMES) {
        return format!(in alloc; "unknown");
    }
    let plan = plan_of(asked);
    let mut index = [[0; 257]; 64];
    let built = index::build(plan, &mut index);
    if says(asked, "row") {
        spoil(asked, &mut index);
    }
    if asked.first() == Some(&Word::Name("update")) {
        let to = update_of(alloc, asked)?;
        return if says(asked, "back") {
            back_told(alloc, to, plan, &mut index)
        } else {
            update_told(alloc, to, plan, &mut index)
        };
    }
    if asked.first() != Some(&Word::Name("list")) {
        return format!(in alloc; "unknown");
    }
    match built {
        Err(r) => format!(in alloc; "{r}"),
        Ok(()) => list_told(alloc, asked, &index),
    }
}

// Each line is answered by itself: nothing is kept for the next.
#[derive(Clone, Copy)]
struct Answers;

impl Answering for Answers {
    fn answer(&mut self, alloc: Global, asked: &[Word]) -> Result<String, AllocError> {
        answer(alloc, asked)
    }
}

fn main(rt: HostRuntime) -> io::Result<()> {
    let tally = console::trials(&rt, &mut [0; 1000], &mut Answers)?;
    println!(rt; "{tally}")
}
