// Calls by a script: a line of standard input a case, `what is done = what comes`, on lent structs AND on lent bytes, which have to agree.
//
// The script has a port, and a row of up to four records. `port ..`, `row ..` and `record ..` make them what is said: cleared, or with states, a use number and signals that wait. A command follows
// `then`, or is a line of its own: `accept`, `busy`, `unobtainable`, `send SIDE SIGNAL`, `teardown SIDE`, `deliver SIDE`, `place`, `show`, `show tunnel N` (with the two channels of that tunnel): for the port, or with `record N use N` or `in row` for the row.
// What comes: the answer, what was sent, and both states after it; or a refusal alone.
// A row of more than four records is made for one line only, `row N .., record N .., then COMMAND`, of bytes alone: rows of so many structs, copied, would not go on the stack.
#![tactic(auto)]

mod records;

use call::{Call, Command, Side};
use call_script::asked::{is_command, is_for_row, name_at, number_at, number_behind};
use call_script::{asked, told};
use console::{EachLine, Tally, Word, before, behind, place_of, says};
use ends::Signal;
use making::Maker;
use placing::Placed;
use plan::{Plan, Seen};
use recordbytes::Commanded;
use records::RECORD;
use refusal::Refusal;
use setup::Setup;
use std::alloc::{AllocError, Global};
use std::io;

// ---- the scene

// A port and a row in bytes, and how many of its four records the row has. The structs are read from them, and what becomes of the structs has to be what becomes of the bytes. An array and a count: what is past the count stays until the next `row`.
#[derive(Clone, Copy)]
struct Scene {
    port: [u8; RECORD],
    row: [u8; 2456],
    count: usize,
}

// A free record with the use number that is said; or a call placed in it.
fn record_each(words: &[Word]) -> Call {
    let mut c = Call::cleared();
    if says(words, "full") {
        return c.placed().call;
    }
    c.use_number = asked::use_of(words);
    c
}

// `row N`: cleared, whatever it held; with `full` calls placed in all records, with `use N` free ones of that use number.
fn make_row(alloc: Global, row: &mut [u8], words: &[Word]) -> Result<(), AllocError> {
    rowbytes::clear(row);
    let each = records::bytes_of(alloc, &record_each(words))?;
    for record in row.chunks_mut(RECORD).take(asked::filled(words)) {
        put(record, &each);
    }
    Ok(())
}

// As many of the bytes as the part of a row has places.
fn put(part: &mut [u8], bytes: &[u8]) {
    for (place, byte) in part.iter_mut().zip(bytes) {
        *place = *byte;
    }
}

fn put_record(alloc: Global, row: &mut [u8], r: usize, c: &Call) -> Result<(), AllocError> {
    put(records::part_of(row, r), &records::bytes_of(alloc, c)?);
    Ok(())
}

// The record that a line sets, where it sets one.
fn put_said(alloc: Global, row: &mut [u8], words: &[Word]) -> Result<(), AllocError> {
    match place_of(words, Word::Name("record")) {
        Some(at) => {
            let said = &words[at..];
            put_record(alloc, row, number_at(said, 1), &asked::record_of(said))
        }
        None => Ok(()),
    }
}

impl Scene {
    fn new() -> Self {
        Scene {
            port: [0; RECORD],
            row: [0; 2456],
            count: 0,
        }
    }

    // What a line sets: the port, the row, a record of it, or nothing.
    fn set(&mut self, alloc: Global, words: &[Word]) -> Result<(), AllocError> {
        match name_at(words, 0).as_bytes() {
            b"port" if words.len() == 1 => self.port = [0; RECORD],
            b"port" => put_record(alloc, &mut self.port, 0, &asked::record_of(words))?,
            b"row" => {
                make_row(alloc, &mut self.row, words)?;
                put_said(alloc, &mut self.row, words)?;
                self.count = number_at(words, 1) % 5;
            }
            b"record" => put_said(alloc, &mut self.row, words)?,
            _ => {}
        }
        Ok(())
    }

    // The row as it is lent.
    fn lent_row(&mut self) -> &mut [u8] {
        let end = self.count.min(4) * RECORD;
        &mut self.row[..end]
    }

    fn calls(&self) -> [Call; 4] {
        [
            records::read_at(&self.row, 0),
            records::read_at(&self.row, 1),
            records::read_at(&self.row, 2),
            records::read_at(&self.row, 3),
        ]
    }

    fn set_calls(&mut self, alloc: Global, calls: &[Call; 4]) -> Result<(), AllocError> {
        for (r, c) in calls.iter().enumerate() {
            put_record(alloc, &mut self.row, r, c)?;
        }
        Ok(())
    }

    // The same records, whatever bytes say them: an empty place and an upack, say, are two numbers and one signal.
    fn has_records_of(&self, other: &Scene) -> bool {
        self.calls() == other.calls() && records::read(&self.port) == records::read(&other.port)
    }
}

// ---- a command by numbers, as the bytes take it

#[derive(Clone, Copy)]
struct Numbers {
    kind: u8,
    side: u8,
    signal: u8,
    tunnel: u8,
    code: u8,
}

fn side_number(side: Side) -> u8 {
    match side {
        Side::Caller => 0,
        Side::Callee => 1,
    }
}

fn bare(kind: u8, side: u8) -> Numbers {
    Numbers {
        kind,
        side,
        signal: 0,
        tunnel: 0,
        code: 0,
    }
}

fn sending(side: Side, x: Signal) -> Numbers {
    Numbers {
        kind: 3,
        side: side_number(side),
        signal: signalbytes::signal_number(x),
        tunnel: signalbytes::signal_tunnel(x),
        code: signalbytes::signal_code(x),
    }
}

fn numbers_of(k: Command) -> Numbers {
    match k {
        Command::Accept => bare(0, 0),
        Command::Busy => bare(1, 0),
        Command::Unobtainable => bare(2, 0),
        Command::Send(side, tunnel, status) => sending(side, Signal::Ordinary(tunnel, status)),
        Command::Teardown(side) => bare(4, side_number(side)),
        Command::Deliver(side) => bare(5, side_number(side)),
    }
}

fn low(n: u64) -> u8 {
    (n % 256) as u8
}

fn numbers_told(alloc: Global, c: Commanded) -> Result<String, AllocError> {
    let x = signalbytes::signal_said(low(c.signal), low(c.tunnel), low(c.code));
    told::numbered(alloc, c.number, c.delivered, x)
}

// ---- structs and bytes side by side

// The bytes do what is asked, and a copy of them that is read as structs. A refusal changes no byte, and the structs come to the same, in every place: else a word is told that no line expects.
fn both<B, S>(
    alloc: Global,
    scene: &mut Scene,
    on_bytes: B,
    on_structs: S,
) -> Result<String, AllocError>
where
    B: FnOnce(&mut Scene) -> Result<String, AllocError>,
    S: FnOnce(&mut Scene) -> Result<String, AllocError>,
    requires bytes { B.IsAlwaysCallable on_bytes }
    requires structs { S.IsAlwaysCallable on_structs }
{
    let before = *scene;
    let mut other = *scene;
    let mut told = on_bytes(scene)?;
    let other_told = on_structs(&mut other)?;
    let changed = scene.port != before.port || scene.row != before.row;
    let apart = told != other_told || !scene.has_records_of(&other);
    if told::is_refused(told.as_str()) && changed {
        told.push_str(" changed")?;
    }
    if apart {
        told.push_str(" apart")?;
    }
    Ok(told)
}

// ---- placing

// The teaching plan; `broken` has more subscribers than a plan may have.
fn plan_for(words: &[Word]) -> Plan {
    let mut plan = teaching::teaching_plan();
    if says(words, "broken") {
        plan.count = 257;
    }
    plan
}

// Line 200 dials 300; `malformed` has no routing address.
fn setup_for(words: &[Word]) -> Setup {
    if says(words, "malformed") {
        return setup::blank_setup();
    }
    let made = making::new_setup(teaching::teaching_plan(), Maker::Line(200), b"300", 0);
    made.unwrap_or(setup::blank_setup())
}

fn seen_by(plan: Plan, out: Setup) -> Seen {
    plan::look(plan, out.source, routing::extracted(out))
}

// What is told of a placing. With `short` the source list is lent with 31 places where 18 is to come.
fn place_told<F>(alloc: Global, words: &[Word], place: F) -> Result<String, AllocError>
where
    F: FnOnce(Plan, Setup, &mut [u8], &mut [u8]) -> Result<Placed, Refusal>,
    requires { F.IsAlwaysCallable place }
{
    let mut source = [told::UNWRITTEN; 32];
    let mut target = [told::UNWRITTEN; 32];
    let room = if says(words, "short") { 31 } else { 32 };
    let placed = place(
        plan_for(words),
        setup_for(words),
        &mut source[..room],
        &mut target,
    );
    told::placing(alloc, placed, &source, &target)
}

// ---- a port

fn port_by_bytes(alloc: Global, scene: &mut Scene, k: Command) -> Result<String, AllocError> {
    let before = records::read(&scene.port);
    let n = numbers_of(k);
    let port = &mut scene.port;
    let answer = rowbytes::port_command(port, n.kind, n.side, n.signal, n.tunnel, n.code);
    let mut told = numbers_told(alloc, answer)?;
    told::push_command(&mut told, &before, &records::read(&scene.port))?;
    Ok(told)
}

fn port_by_structs(alloc: Global, scene: &mut Scene, k: Command) -> Result<String, AllocError> {
    let before = records::read(&scene.port);
    let step = call_script::port_command_in(before, k);
    put_record(alloc, &mut scene.port, 0, &step.call)?;
    let mut told = told::answer(alloc, step.answer)?;
    told::push_command(&mut told, &before, &step.call)?;
    Ok(told)
}

fn port_placed_by_bytes(
    alloc: Global,
    scene: &mut Scene,
    words: &[Word],
) -> Result<String, AllocError> {
    place_told(alloc, words, |plan, out, source, target| {
        let kept = soundness::sound(plan);
        let seen = seen_by(plan, out);
        rowbytes::port_place(kept, &mut scene.port, seen, out, source, target)
    })
}

fn port_placed_by_structs(
    alloc: Global,
    scene: &mut Scene,
    words: &[Word],
) -> Result<String, AllocError> {
    let mut port = records::read(&scene.port);
    let told = place_told(alloc, words, |plan, out, source, target| {
        let after = call_script::place_port_in(port, plan, out, source, target);
        port = after.call;
        after.placed
    })?;
    put_record(alloc, &mut scene.port, 0, &port)?;
    Ok(told)
}

fn for_port(alloc: Global, scene: &mut Scene, words: &[Word]) -> Result<String, AllocError> {
    if name_at(words, 0) == "place" {
        return both(
            alloc,
            scene,
            |s| port_placed_by_bytes(alloc, s, words),
            |s| port_placed_by_structs(alloc, s, words),
        );
    }
    let k = asked::command_of(words);
    both(
        alloc,
        scene,
        |s| port_by_bytes(alloc, s, k),
        |s| port_by_structs(alloc, s, k),
    )
}

// ---- a row

// The record of a row that a command is for, and its use number.
fn record_said(words: &[Word]) -> (usize, u16) {
    (number_behind(words, "record"), asked::use_of(words))
}

fn commanded_by_bytes(alloc: Global, row: &mut [u8], words: &[Word]) -> Result<String, AllocError> {
    let (r, use_number) = record_said(words);
    let before = records::read_at(row, r);
    let n = numbers_of(asked::command_of(words));
    let answer = rowbytes::command(
        row, r, use_number, n.kind, n.side, n.signal, n.tunnel, n.code,
    );
    let mut told = numbers_told(alloc, answer)?;
    told::push_command(&mut told, &before, &records::read_at(row, r))?;
    Ok(told)
}

fn placed_by_bytes(alloc: Global, row: &mut [u8], words: &[Word]) -> Result<String, AllocError> {
    place_told(alloc, words, |plan, out, source, target| {
        let kept = soundness::sound(plan);
        rowbytes::place(kept, row, seen_by(plan, out), out, source, target)
    })
}

// Whether all records but one are the same.
fn same_others(before: &[u8], after: &[u8], r: usize) -> bool {
    let mut both = before.chunks(RECORD).zip(after.chunks(RECORD)).enumerate();
    both.all(|(i, (x, y))| i == r % 1025 || x == y)
}

// By the bytes, whatever is asked of a row. Nothing changes a byte of another record: else a word is told that no line expects.
fn row_by_bytes(alloc: Global, row: &mut [u8], words: &[Word]) -> Result<String, AllocError> {
    let before = Vec::from_slice(alloc, row)?;
    let places = name_at(words, 0) == "place";
    let r = if places {
        rowbytes::lowest_free(row)
    } else {
        number_behind(words, "record")
    };
    let mut told = if places {
        placed_by_bytes(alloc, row, words)?
    } else {
        commanded_by_bytes(alloc, row, words)?
    };
    if !same_others(&before, row, r) {
        told.push_str(" elsewhere")?;
    }
    Ok(told)
}

fn record_of(calls: &[Call; 4], r: usize) -> Call {
    calls.get(r).copied().unwrap_or(Call::cleared())
}

fn row_by_structs(alloc: Global, scene: &mut Scene, words: &[Word]) -> Result<String, AllocError> {
    let calls = scene.calls();
    let (r, use_number) = record_said(words);
    let k = asked::command_of(words);
    let after = call_script::command_in(calls, scene.count, r, use_number, k);
    scene.set_calls(alloc, &after.calls)?;
    let mut told = told::answer(alloc, after.answer)?;
    let before = record_of(&calls, r);
    told::push_command(&mut told, &before, &record_of(&after.calls, r))?;
    Ok(told)
}

fn row_placed_by_structs(
    alloc: Global,
    scene: &mut Scene,
    words: &[Word],
) -> Result<String, AllocError> {
    let mut calls = scene.calls();
    let count = scene.count;
    let told = place_told(alloc, words, |plan, out, source, target| {
        let after = call_script::place_in(calls, count, plan, out, source, target);
        let left = after.calls;
        calls = left;
        after.placed
    })?;
    scene.set_calls(alloc, &calls)?;
    Ok(told)
}

fn for_row(alloc: Global, scene: &mut Scene, words: &[Word]) -> Result<String, AllocError> {
    both(
        alloc,
        scene,
        |s| row_by_bytes(alloc, s.lent_row(), words),
        |s| {
            if name_at(words, 0) == "place" {
                row_placed_by_structs(alloc, s, words)
            } else {
                row_by_structs(alloc, s, words)
            }
        },
    )
}

// ---- a case

// With `tunnel N` the two channels of that tunnel too.
fn shown(alloc: Global, scene: &Scene, words: &[Word]) -> Result<String, AllocError> {
    let c = if is_for_row(words) {
        records::read_at(&scene.row, number_behind(words, "record"))
    } else {
        records::read(&scene.port)
    };
    let mut told = told::record(alloc, &c)?;
    if says(words, "tunnel") {
        let tunnel = (number_behind(words, "tunnel") % 256) as u8;
        told::push_channels(&mut told, &c, tunnel)?;
    }
    Ok(told)
}

fn case(alloc: Global, scene: &mut Scene, words: &[Word]) -> Result<String, AllocError> {
    if !is_command(words) {
        return format!(in alloc; "unclear");
    }
    if name_at(words, 0) == "show" {
        return shown(alloc, scene, words);
    }
    if is_for_row(words) {
        for_row(alloc, scene, words)
    } else {
        for_port(alloc, scene, words)
    }
}

// ---- a row of up to 1,025 records, for one line: `row N .., record N .., then COMMAND`

// Bytes alone: a refusal changes none of them.
fn long_row(alloc: Global, set: &[Word], words: &[Word]) -> Result<String, AllocError> {
    let mut row = vec![in alloc; 0; number_at(set, 1) % 1026 * RECORD]?;
    make_row(alloc, &mut row, set)?;
    put_said(alloc, &mut row, set)?;
    let before = row.clone()?;
    let mut told = row_by_bytes(alloc, &mut row, words)?;
    if told::is_refused(told.as_str()) && row != before {
        told.push_str(" changed")?;
    }
    Ok(told)
}

// ---- a line

// What a line sets, and the command that is behind `then`.
fn set_and_case(
    alloc: Global,
    scene: &mut Scene,
    set: &[Word],
    words: &[Word],
) -> Result<String, AllocError> {
    if asked::is_long(set) && is_command(words) {
        return long_row(alloc, set, words);
    }
    scene.set(alloc, set)?;
    case(alloc, scene, words)
}

fn came(alloc: Global, scene: &mut Scene, asked: &[Word]) -> Result<String, AllocError> {
    if !asked::is_clear(asked) {
        return format!(in alloc; "unclear");
    }
    match behind(asked, Word::Name("then")) {
        Some(words) => set_and_case(alloc, scene, before(asked, Word::Name("then")), words),
        None => case(alloc, scene, asked),
    }
}

// A line without the sign only sets the scene.
fn one_line(
    rt: &(impl Print + AllocGlobal),
    tally: &mut Tally,
    scene: &mut Scene,
    text: &[u8],
) -> io::Result<()> {
    tally.next_line();
    if console::is_remark(text) {
        return Ok(());
    }
    let alloc = rt.alloc();
    let small = console::in_small_letters(alloc, text)?;
    let words = console::words_of(alloc, &small)?;
    if asked::sets_only(&words) {
        scene.set(alloc, &words)?;
        return Ok(());
    }
    let came = came(alloc, scene, before(&words, Word::Equals))?;
    tally.judge(rt, text, &words, came.as_str())
}

// The scene and the tally go on from line to line.
#[derive(Drop)]
struct Script<'a, R> {
    rt: &'a R,
    tally: Tally,
    scene: Scene,
}

impl<R: Print + AllocGlobal> EachLine for Script<'_, R> {
    fn take_line(&mut self, text: &[u8]) -> io::Result<()> {
        one_line(self.rt, &mut self.tally, &mut self.scene, text)
    }
}

// Beside `main`, which the check does not cover where it holds a `Script`.
fn all_lines(rt: &(impl Input + Print + AllocGlobal)) -> io::Result<()> {
    let mut script = Script {
        rt,
        tally: Tally::new(),
        scene: Scene::new(),
    };
    console::for_each_line(
        &mut rt.reader(),
        console::MOST_LINES,
        &mut [0; 1000],
        &mut script,
    )?;
    println!(rt; "{}", script.tally)
}

fn main(rt: HostRuntime) -> io::Result<()> {
    all_lines(&rt)
}
