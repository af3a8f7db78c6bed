// Draws a conference from a script on standard input: a line is an operation on the links of one box (manual 11.2), `hear 3.1 from 1.1`, `stop 3.1 from 1.1`, `drop 2` or `show`.
// A termination is written port.channel. `show` tells who hears whom as a table and as a picture. Lines that begin with `-` are remarks; they and any others are only repeated.
#![tactic(auto)]

ghost use Rattle.std.specs.Prelude.{◌<◌};

use console::{EachLine, Word};
use links::Termination;
use refusal::Refusal;
use std::alloc::{AllocError, Global};
use std::collections::BTreeSet;
use std::io;

// ---- what a line asks

// A port or a channel. A word that is no number is one by its letters, or by its sign.
fn field(word: Option<&Word>) -> u16 {
    match word {
        None => 0,
        Some(Word::Number(n)) => (n % 65536) as u16,
        Some(Word::Symbol(c)) => u16::from(*c),
        Some(Word::Quote) => u16::from(b'"'),
        Some(Word::Equals) => u16::from(b'='),
        Some(Word::Name(name)) => name.as_bytes().iter().fold(0u16, |n, c| {
            n.wrapping_mul(32).wrapping_add(u16::from(c % 32))
        }),
    }
}

// The termination after the word at this place: `hear 3.1 from 1.1` has the words hear, 3, 1, from, 1, 1.
fn termination(words: &[Word], i: usize) -> Termination
    requires { i < 200 }
{
    Termination {
        port: field(words.get(i + 1)),
        channel: field(words.get(i + 2)),
    }
}

// ---- drawing

// A termination in the one number that the links have for it.
fn in_words(alloc: Global, termination: u32) -> Result<String, AllocError> {
    format!(in alloc; "{}.{}", termination >> 16, termination % 65536)
}

fn sink_of(link: u64) -> u32 {
    (link >> 32) as u32
}

fn source_of(link: u64) -> u32 {
    (link % (1 << 32)) as u32
}

// The sinks of all links, or their sources: each once, the lowest first.
fn ends<F: Fn(u64) -> u32>(
    alloc: Global,
    links: &[u64; 64],
    end_of: F,
) -> Result<BTreeSet<u32>, AllocError>
    requires { F.IsAlwaysCallable end_of }
{
    let mut ends = BTreeSet::new(alloc);
    for link in links {
        if *link != 0 {
            ends.insert(end_of(*link))?;
        }
    }
    Ok(ends)
}

// A row for each sink, a column for each source.
fn print_table(rt: &(impl Print + AllocGlobal), links: &[u64; 64]) -> io::Result<()> {
    let alloc = rt.alloc();
    let sources = ends(alloc, links, source_of)?;
    print!(rt; "  hears        ")?;
    for source in sources.iter() {
        print!(rt; "{:>13}", in_words(alloc, *source)?)?;
    }
    println!(rt)?;
    let sinks = ends(alloc, links, sink_of)?;
    for sink in sinks.iter() {
        print!(rt; "  {:<13}", in_words(alloc, *sink)?)?;
        for source in sources.iter() {
            let link = u64::from(*sink) << 32 | u64::from(*source);
            let mark = if links.contains(&link) { 'x' } else { '.' };
            print!(rt; "{mark:>13}")?;
        }
        println!(rt)?;
    }
    Ok(())
}

// The sources of one sink, one under the other, and an arrow from all of them.
fn print_arrows(rt: &(impl Print + AllocGlobal), sources: &[u32], sink: u32) -> io::Result<()> {
    let alloc = rt.alloc();
    for (i, source) in sources.iter().enumerate() {
        print!(rt; "  {:-<13}+", in_words(alloc, *source)?)?;
        if i + 1 < sources.len() {
            println!(rt)?;
        } else {
            println!(rt; "--> {}", in_words(alloc, sink)?)?;
        }
    }
    Ok(())
}

fn print_picture(rt: &(impl Print + AllocGlobal), links: &[u64; 64]) -> io::Result<()> {
    let sinks = ends(rt.alloc(), links, sink_of)?;
    for sink in sinks.iter() {
        let termination = Termination {
            port: (sink >> 16) as u16,
            channel: (sink % 65536) as u16,
        };
        let mut room = [0; 64];
        match links::sources(links, termination, &mut room) {
            Ok(n) => print_arrows(rt, room.get(..n).unwrap_or(&room), *sink)?,
            Err(r) => print!(rt; "{r}")?,
        }
    }
    Ok(())
}

fn show(rt: &(impl Print + AllocGlobal), links: &[u64; 64]) -> io::Result<()> {
    println!(rt)?;
    if links[0] == 0 {
        println!(rt; "  nobody hears anybody")?;
    } else {
        print_table(rt, links)?;
        println!(rt)?;
        print_picture(rt, links)?;
    }
    println!(rt)
}

// ---- all lines

fn print_outcome(rt: &impl Print, outcome: Result<(), Refusal>) -> io::Result<()> {
    match outcome {
        Ok(()) => println!(rt; " = done"),
        Err(r) => println!(rt; " = {r}"),
    }
}

fn one_line(rt: &(impl Print + AllocGlobal), links: &mut [u64; 64], text: &[u8]) -> io::Result<()> {
    rt.write_all(text)?;
    if console::is_remark(text) {
        return println!(rt);
    }
    let small = console::in_small_letters(rt.alloc(), text)?;
    let words = console::words_of(rt.alloc(), &small)?;
    let sink = termination(&words, 0);
    let source = termination(&words, 3);
    match words.first() {
        Some(Word::Name(name)) => match name.as_bytes() {
            b"hear" => print_outcome(rt, links::add(links, sink, source)),
            b"stop" => print_outcome(rt, links::remove(links, sink, source)),
            b"drop" => print_outcome(rt, links::drop(links, sink.port)),
            b"show" => show(rt, links),
            _ => println!(rt),
        },
        _ => println!(rt),
    }
}

// The links go on from line to line.
#[derive(Drop)]
struct Script<'a, R> {
    rt: &'a R,
    links: [u64; 64],
}

impl<R: Print + AllocGlobal> EachLine for Script<'_, R> {
    fn take_line(&mut self, text: &[u8]) -> io::Result<()> {
        one_line(self.rt, &mut self.links, text)
    }
}

// Beside `main`, which the check does not cover where it holds a `Script`.
fn all_lines(rt: &(impl Input + Print + AllocGlobal)) -> io::Result<()> {
    let mut script = Script { rt, links: [0; 64] };
    console::for_each_line(
        &mut rt.reader(),
        console::MOST_LINES,
        &mut [0; 200],
        &mut script,
    )
}

fn main(rt: HostRuntime) -> io::Result<()> {
    all_lines(&rt)
}
