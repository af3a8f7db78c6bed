// What came, told in the words of the table: what a command answers, sends and leaves, what a record holds, where a call was placed. States, signals and statuses have the names of their variants.
use call::{Call, End, Queue, Signal};
use placing::Placed;
use refusal::Refusal;
use routing::Callee;
use std::alloc::{AllocError, Global};
use std::fmt::Write;

// What the two lists are lent with: no type of the teaching plan's.
pub const UNWRITTEN: u8 = 7;

// ---- signals and states

// Its name; a dtmf's symbol and a special's code; the tunnel where it is not 0.
fn push_signal(told: &mut String, x: Signal) -> Result<(), AllocError> {
    match x {
        Signal::Ordinary(0, status) => write!(told, " {status:?}"),
        Signal::Ordinary(tunnel, status) => write!(told, " {status:?} tunnel {tunnel}"),
        _ => write!(told, " {x:?}"),
    }
}

// The caller's state and the callee's.
fn push_states(told: &mut String, c: &Call) -> Result<(), AllocError> {
    let caller = c.caller.state;
    let callee = c.callee.state;
    write!(told, " {caller:?} and {callee:?}")
}

// ---- a command

// The answer of a command on structs.
pub fn answer(alloc: Global, a: Result<Option<Signal>, Refusal>) -> Result<String, AllocError> {
    let mut told = String::new(alloc);
    match a {
        Ok(None) => told.push_str("accepted")?,
        Ok(Some(x)) => push_signal(&mut told, x)?,
        Err(r) => write!(told, "{r}")?,
    }
    Ok(told)
}

// The answer of a command on bytes: a refusal's number; or 0, and 1 and a signal where one was handed over.
pub fn numbered(
    alloc: Global,
    number: u64,
    delivered: u64,
    x: Signal,
) -> Result<String, AllocError> {
    if number != 0 {
        return format!(in alloc; "refused {number}");
    }
    answer(alloc, Ok(if delivered == 0 { None } else { Some(x) }))
}

// Whether what came is a refusal: it begins with a word that no other answer has.
pub fn is_refused(told: &str) -> bool {
    told.starts_with("refused")
}

// The signals from one place of a queue up to another.
fn push_signals(told: &mut String, q: &Queue, first: u8, end: u8) -> Result<(), AllocError> {
    for x in q
        .slots
        .iter()
        .take(usize::from(end))
        .skip(usize::from(first))
    {
        push_signal(told, *x)?;
    }
    Ok(())
}

// What came into the queue towards a side.
fn push_sent(
    told: &mut String,
    side: &str,
    before: &Queue,
    after: &Queue,
) -> Result<(), AllocError> {
    if before.count < after.count {
        write!(told, " sends to {side}")?;
        push_signals(told, after, before.count, after.count)?;
    }
    Ok(())
}

// A refusal alone; else the answer, what was sent, and both states.
pub fn push_command(told: &mut String, before: &Call, after: &Call) -> Result<(), AllocError> {
    if is_refused(told.as_str()) {
        return Ok(());
    }
    push_sent(told, "caller", &before.to_caller, &after.to_caller)?;
    push_sent(told, "callee", &before.to_callee, &after.to_callee)?;
    push_states(told, after)
}

// ---- a record

// How many signals wait, and which; and `junk` where something else than a cleared place stands past them.
fn push_queue(told: &mut String, side: &str, q: &Queue) -> Result<(), AllocError> {
    write!(told, " to {side} {}", q.count)?;
    push_signals(told, q, 0, q.count)?;
    let mut past = q.slots.iter().skip(usize::from(q.count));
    if past.any(|x| *x != Signal::Upack) {
        told.push_str(" junk")?;
    }
    Ok(())
}

pub fn record(alloc: Global, c: &Call) -> Result<String, AllocError> {
    let mut told = String::new(alloc);
    push_states(&mut told, c)?;
    write!(told, " use {}", c.use_number)?;
    push_queue(&mut told, "caller", &c.to_caller)?;
    push_queue(&mut told, "callee", &c.to_callee)?;
    Ok(told)
}

// The states of a tunnel's channels, the caller's and the callee's.
pub fn push_channels(told: &mut String, c: &Call, tunnel: u8) -> Result<(), AllocError> {
    let of = |end: &End| end.channels[usize::from(tunnel)];
    write!(told, " channels {} {}", of(&c.caller), of(&c.callee))
}

// ---- a placing

// In this table's words an error box has a number too. (A function and no `Display`: the type is another crate's.)
fn push_callee(told: &mut String, c: Callee) -> Result<(), AllocError> {
    match c {
        Callee::Feature(t, a) => write!(told, "feature {t} at {a}"),
        Callee::Line(n, a) => write!(told, "line {n} at {a}"),
        Callee::Trunk(n, a) => write!(told, "trunk {n} at {a}"),
        Callee::Resource(n, a) => write!(told, "resource {n} at {a}"),
        Callee::Error(a) => write!(told, "error 0 at {a}"),
    }
}

// The types that were written into a list, wherever they stand.
fn push_written(told: &mut String, list: &[u8; 32]) -> Result<(), AllocError> {
    for t in list.iter().filter(|t| **t != UNWRITTEN) {
        write!(told, " {t}")?;
    }
    Ok(())
}

// Where it was placed and what routing gave, or the refusal; and both lists: beside a refusal nothing was written.
pub fn placing(
    alloc: Global,
    placed: Result<Placed, Refusal>,
    source: &[u8; 32],
    target: &[u8; 32],
) -> Result<String, AllocError> {
    let mut told = String::new(alloc);
    match placed {
        Ok(p) => {
            push_callee(&mut told, p.routed.callee)?;
            write!(told, " record {} use {}", p.record_number, p.use_number)?;
            told.push_str(" zones")?;
            push_written(&mut told, source)?;
            told.push_str(" and")?;
            push_written(&mut told, target)?;
        }
        Err(r) => {
            write!(told, "{r}")?;
            push_written(&mut told, source)?;
            push_written(&mut told, target)?;
        }
    }
    Ok(told)
}
