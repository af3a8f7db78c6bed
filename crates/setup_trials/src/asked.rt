// What a line asks: a plan, a box, a setup, arguments, rooms.
ghost use Rattle.std.specs.Prelude.{◌≤◌};

use console::{Word, number_after, run_after, says};
use making::Maker;
use plan::{Plan, Region, Subscriber};
use refusal::Refusal;
use setup::{Dialled, Route, Setup};
use std::alloc::{AllocError, Global};
use zone::Zone;

// A number that is too large is the largest.
fn word(n: u64) -> u32 {
    u32::try_from(n).unwrap_or(u32::MAX)
}

fn byte(n: u64) -> u8 {
    u8::try_from(n).unwrap_or(u8::MAX)
}

// 0 where the line does not say it.
pub fn address_after(asked: &[Word], name: &str) -> u32 {
    word(number_after(asked, name).unwrap_or(0))
}

// ---- plans

// All 32 types are everybody's choice. The last subscriber has the largest address, the largest box number and every type.
fn full() -> Plan {
    let mut plan = teaching::teaching_plan();
    plan.types.existing = u32::MAX;
    plan.types.source_choice = u32::MAX;
    plan.types.target_choice = u32::MAX;
    plan.subscribers[5] = Subscriber {
        kind: 1,
        address: 999_999_999,
        source: u32::MAX,
        target: u32::MAX,
        boxes: [65_535, 0, 0, 0],
        count: 1,
    };
    plan
}

// The teaching plan. A broken one counts a subscriber that it does not have.
pub fn plan_of(asked: &[Word]) -> Plan {
    let mut plan = if says(asked, "full") {
        full()
    } else {
        teaching::teaching_plan()
    };
    if says(asked, "broken") {
        plan.count = 7;
    }
    plan
}

// ---- a setup

// What stands past the length of a list or a string: 0, or in junk and in what is lent something else in each place.
pub fn past(junk: bool, i: usize) -> u8 {
    if junk { 100 + (i % 100) as u8 } else { 0 }
}

fn places<const N: usize>(bytes: &[u8], junk: bool) -> [u8; N] {
    let mut places = [0; N];
    for (i, place) in places.iter_mut().enumerate() {
        *place = bytes.get(i).copied().unwrap_or(past(junk, i));
    }
    places
}

// A lent list that nothing was written to.
pub fn lent() -> [u8; 40] {
    places(&[], true)
}

// The bytes of a string.
pub fn string_of(alloc: Global, asked: &[Word]) -> Result<Vec<u8>, AllocError> {
    run_after(alloc, asked, Word::Quote)
}

// The length of a string or a list, unless the line says another one.
fn length_of(asked: &[Word], name: &str, bytes: &[u8]) -> u8 {
    byte(number_after(asked, name).unwrap_or(bytes.len() as u64))
}

fn dialled_of(alloc: Global, asked: &[Word], junk: bool) -> Result<Dialled, AllocError> {
    let string = string_of(alloc, asked)?;
    Ok(Dialled {
        symbols: places(&string, junk),
        len: length_of(asked, "symbols", &string),
    })
}

fn list_of(alloc: Global, asked: &[Word], junk: bool) -> Result<Zone, AllocError> {
    let list = run_after(alloc, asked, Word::Name("list"))?;
    Ok(Zone {
        types: places(&list, junk),
        len: length_of(asked, "types", &list),
    })
}

pub fn region_of(asked: &[Word]) -> Region {
    if says(asked, "target") {
        Region::Target
    } else {
        Region::Source
    }
}

fn route_of(asked: &[Word]) -> Route {
    if says(asked, "whole") {
        Route::Whole
    } else if says(asked, "suffix") {
        Route::Suffix
    } else {
        Route::Listed
    }
}

pub fn setup_of(alloc: Global, asked: &[Word]) -> Result<Setup, AllocError> {
    let junk = says(asked, "junk");
    let placing = number_after(asked, "placing").unwrap_or(0);
    Ok(Setup {
        region: region_of(asked),
        source: address_after(asked, "from"),
        dialled: dialled_of(alloc, asked, junk)?,
        target: address_after(asked, "to"),
        route: route_of(asked),
        list: list_of(alloc, asked, junk)?,
        placing: says(asked, "placing").then_some(byte(placing)),
        outer: says(asked, "outer").then_some(address_after(asked, "outer")),
    })
}

// ---- a box, and what else an operation is handed

// The word after `by` says which.
pub fn maker_of(asked: &[Word]) -> Maker {
    let Some(Word::Name(kind)) = console::after(asked, "by") else {
        return Maker::Error;
    };
    let number = number_after(asked, kind).unwrap_or(0);
    match kind.as_bytes() {
        b"feature" => Maker::Feature(byte(number), address_after(asked, "at")),
        b"line" => Maker::Line(word(number)),
        b"trunk" => Maker::Trunk(word(number)),
        b"resource" => Maker::Resource,
        _ => Maker::Error,
    }
}

// Another number than these is 17, which no caller of routing has and no line expects.
pub fn later_of(asked: &[Word]) -> Result<(), Refusal> {
    match number_after(asked, "later").unwrap_or(0) {
        0 => Ok(()),
        10 => Err(Refusal::NoSuchCall),
        11 => Err(Refusal::NoFreeRecord),
        16 => Err(Refusal::RowTooLong),
        _ => Err(Refusal::BrokenRecord),
    }
}

// The room of a list, 0 to 40: `rooms N and N`. A larger one can't be had, and is 0, which is refused.
pub fn room(asked: &[Word], name: &str) -> usize
    ensures { result ≤ 40 }
{
    let n = number_after(asked, name).unwrap_or(32);
    if n <= 40 { n as usize } else { 0 }
}
