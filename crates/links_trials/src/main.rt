// Trials of a box's links. The table on standard input has a line for each case and says what is expected; its head says what a line may say. Every place of what is lent is looked at.
#![tactic(auto)]

ghost use Rattle.std.specs.Prelude.{◌<◌};

use console::{Answering, Word, behind, number_after, says};
use links::Termination;
use refusal::Refusal;
use std::alloc::{AllocError, Global};
use std::{fmt, io};

// The names that the lines of the table use.
const NAMES: [&str; 16] = [
    "add",
    "remove",
    "drop",
    "sources",
    "from",
    "set",
    "many",
    "put",
    "at",
    "accepted",
    "refused",
    "empty",
    "unchanged",
    "changed",
    "junk",
    "unknown",
];

// ---- what a line asks

// The number at a place; 0 where none is. (Each program has its own answer for what is missing.)
fn number_at(words: &[Word], i: usize) -> u16 {
    match words.get(i) {
        Some(Word::Number(n)) => (n % 65536) as u16,
        _ => 0,
    }
}

// The termination that begins with the number at a place.
fn termination_at(words: &[Word], i: usize) -> Termination
    requires { i < 10 }
{
    Termination {
        port: number_at(words, i),
        channel: number_at(words, i + 1),
    }
}

fn termination_after(words: &[Word], name: &str) -> Termination {
    termination_at(behind(words, Word::Name(name)).unwrap_or(&[]), 0)
}

// A link as the memory holds it. Made here, and not taken from `links`, which is tried.
fn link(sink: Termination, source: Termination) -> u64 {
    u64::from(sink.port) << 48
        | u64::from(sink.channel) << 32
        | u64::from(source.port) << 16
        | u64::from(source.channel)
}

// Link k of `many`: to 10.1 from 20.(k + 1).
fn of_many(k: usize) -> u64 {
    let sink = Termination {
        port: 10,
        channel: 1,
    };
    let source = Termination {
        port: 20,
        channel: (k % 64) as u16 + 1,
    };
    link(sink, source)
}

// The memory that a line has: its many links, the links of `set` after them, and a number that it puts at a place.
fn memory(words: &[Word]) -> [u64; 64] {
    let mut links = [0; 64];
    let many = number_after(words, "many").unwrap_or(0);
    for (k, link) in links.iter_mut().enumerate() {
        if (k as u64) < many {
            *link = of_many(k);
        }
    }
    let set = behind(words, Word::Name("set")).unwrap_or(&[]);
    let free = links.iter_mut().skip((many % 64) as usize);
    for (place, four) in free.zip(set.chunks(4)) {
        if !matches!(four.first(), Some(Word::Number(_))) {
            break;
        }
        *place = link(termination_at(four, 0), termination_at(four, 2));
    }
    if says(words, "put") {
        let at = number_after(words, "at").unwrap_or(0);
        links[(at % 64) as usize] = number_after(words, "put").unwrap_or(0);
    }
    links
}

// ---- what came

// The memory in words.
#[derive(Clone, Copy)]
struct InWords<'a>(&'a [u64; 64]);

impl fmt::Display for InWords<'_> {
    fn fmt<W: fmt::Write>(&self, f: &mut fmt::Formatter<W>) -> fmt::Result {
        let links = self.0;
        let many = links
            .iter()
            .enumerate()
            .take_while(|(k, link)| **link == of_many(*k))
            .count();
        let used = links.iter().take_while(|link| **link != 0).count();
        if many != 0 {
            write!(f, "many {many}")?;
        } else if links[0] == 0 {
            write!(f, "empty")?;
        }
        for link in links.iter().take(used).skip(many) {
            let (sink, source) = (link >> 32, link % (1 << 32));
            write!(f, " {}.{}", sink >> 16, sink % 65536)?;
            write!(f, " < {}.{}", source >> 16, source % 65536)?;
        }
        if links.iter().skip(used).any(|link| *link != 0) {
            write!(f, " junk")?;
        }
        Ok(())
    }
}

// A refusal's number; and `changed` where it did not leave what was lent as it was.
fn refused(alloc: Global, r: Refusal, unchanged: bool) -> Result<String, AllocError> {
    let changed = if unchanged { "" } else { " changed" };
    format!(in alloc; "refused {}{changed}", r.number())
}

fn told(
    alloc: Global,
    outcome: Result<(), Refusal>,
    before: &[u64; 64],
    after: &[u64; 64],
) -> Result<String, AllocError> {
    let unchanged = before == after;
    match outcome {
        Err(r) => refused(alloc, r, unchanged),
        Ok(()) => {
            if unchanged {
                format!(in alloc; "accepted unchanged")
            } else {
                format!(in alloc; "accepted {}", InWords(after))
            }
        }
    }
}

// The sources are told as links to their sink; what stands in the room past them as it is.
fn sources_told(alloc: Global, links: &[u64; 64], sink: Termination) -> Result<String, AllocError> {
    let mut room = [7u32; 64];
    match links::sources(links, sink, &mut room) {
        Err(r) => refused(alloc, r, room == [7; 64]),
        Ok(n) => {
            let mut listed = room.map(u64::from);
            for link in listed.iter_mut().take(n) {
                *link |= u64::from(sink.port) << 48 | u64::from(sink.channel) << 32;
            }
            format!(in alloc; "accepted {n} {}", InWords(&listed))
        }
    }
}

fn answer(alloc: Global, words: &[Word]) -> Result<String, AllocError> {
    let before = memory(words);
    let mut after = before;
    if !console::known(words, &NAMES) {
        return format!(in alloc; "unknown");
    }
    let outcome = if says(words, "add") {
        let source = termination_after(words, "from");
        links::add(&mut after, termination_after(words, "add"), source)
    } else if says(words, "remove") {
        let source = termination_after(words, "from");
        links::remove(&mut after, termination_after(words, "remove"), source)
    } else if says(words, "drop") {
        links::drop(&mut after, termination_after(words, "drop").port)
    } else {
        return sources_told(alloc, &before, termination_after(words, "sources"));
    };
    told(alloc, outcome, &before, &after)
}

// Each line is answered by itself: nothing is kept for the next.
#[derive(Clone, Copy)]
struct Answers;

impl Answering for Answers {
    fn answer(&mut self, alloc: Global, asked: &[Word]) -> Result<String, AllocError> {
        answer(alloc, asked)
    }
}

fn main(rt: HostRuntime) -> io::Result<()> {
    let tally = console::trials(&rt, &mut [0; 1000], &mut Answers)?;
    println!(rt; "{tally}")
}
