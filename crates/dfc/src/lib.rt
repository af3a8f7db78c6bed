// The core for programs in other languages: functions on numbers and lent bytes, over a plan file. The header is include/dfc.h; the crate `dfc_c` makes the archive.
#![tactic(auto)]

ghost use Rattle.std.specs.Prelude.{◌≡◌, ℕ, ◌≤◌, ◌<◌, length};
ghost use Rattle.dfc.specs.Said.{region_of, maker_of};
ghost use Rattle.setupbytes.specs.Codec.{setup_in};
ghost use Rattle.dfc.specs.Files.{checked, written_said, rewritten, room_rewritten, zoned, types_zoned, made_said, made_room, new_over, continued_over, reversed_over};
ghost use Rattle.dfc.specs.Routes.{box_kind, box_number, box_address, routed_to, not_routed, routed_said, routed_room, route_over, source_routed, target_routed};

use answers::Answer;
use making::Maker;
use plan::Region;
use refusal::Refusal;
use routing::Callee;
use setup::Setup;

// (Each archive has this: they rest on no common crate for C's numbers.)
fn region_of(n: u8) -> Region
    ensures { result ≡ region_of n }
{
    if n == 0 {
        Region::Source
    } else {
        Region::Target
    }
}

fn maker_of(kind: u8, of_type: u8, address: u32) -> Maker
    ensures { result ≡ maker_of kind of_type address }
{
    match kind {
        0 => Maker::Feature(of_type, address),
        1 => Maker::Line(address),
        2 => Maker::Trunk(address),
        3 => Maker::Resource,
        _ => Maker::Error,
    }
}

// ---- the plan file

// Whether some bytes are a plan file.
#[unsafe(no_mangle)]
pub extern "C" fn dfc_check(file: &[u8]) -> Answer
    ensures { result ≡ checked file.now }
{
    match planread::verdict(file) {
        Ok(()) => answers::accepted(0),
        Err(r) => answers::refused(r),
    }
}

fn written_said(w: Result<usize, Refusal>) -> Answer
    ensures { result ≡ written_said w }
{
    answers::answered(w.map(|n| n as u64))
}

// The plan of a file, written again into the room.
#[unsafe(no_mangle)]
pub extern "C" fn dfc_write(file: &[u8], room: &mut [u8]) -> Answer
    ensures { (result ≡ rewritten file.now room.old) × (room.new ≡ room_rewritten file.now room.old) }
{
    written_said(planback::rewrite(file, room))
}

// ---- zones

// The zone of an address in a region, into 32 places, and how many types it has.
#[unsafe(no_mangle)]
pub extern "C" fn dfc_zone(file: &[u8], region: u8, address: u32, types: &mut [u8; 32]) -> Answer
    ensures { (result ≡ zoned file.now region address) × (types.new ≡ types_zoned file.now region address types.old) }
{
    match planback::scan(file, address, 0) {
        Ok(v) => {
            let zone = zone::zone_shown(region_of(region), v, v.first);
            let all = zone.types;
            *types = all;
            answers::accepted(zone.len.into())
        }
        Err(r) => answers::refused(r),
    }
}

// ---- making setups

// A setup's bytes into the room, where one was made.
fn handed(made: Result<Setup, Refusal>, room: &mut [u8; 110]) -> Answer
    ensures { (result ≡ made_said made) × (room.new ≡ made_room made room.old) }
{
    match made {
        Ok(setup) => {
            *room = setupbytes::setup_bytes(setup);
            answers::accepted(110)
        }
        Err(r) => answers::refused(r),
    }
}

fn new_over(file: &[u8], maker: Maker, string: &[u8], target: u32) -> Result<Setup, Refusal>
    ensures { result ≡ new_over file.now maker string.now target }
{
    let v = planback::scan(file, making::box_address(maker), 0)?;
    making::new_seen(true, v, maker, string, target)
}

// A new setup.
#[unsafe(no_mangle)]
pub extern "C" fn dfc_new(
    file: &[u8],
    kind: u8,
    of_type: u8,
    address: u32,
    string: &[u8],
    target: u32,
    room: &mut [u8; 110],
) -> Answer
    ensures { (result ≡ made_said (new_over file.now (maker_of kind of_type address) string.now target))
        × (room.new ≡ made_room (new_over file.now (maker_of kind of_type address) string.now target) room.old) }
{
    let maker = maker_of(kind, of_type, address);
    handed(new_over(file, maker, string, target), room)
}

fn continued_over(
    file: &[u8],
    maker: Maker,
    s: Setup,
    source: u32,
    string: &[u8],
    target: u32,
) -> Result<Setup, Refusal>
    ensures { result ≡ continued_over file.now maker s source string.now target }
{
    let v = planback::scan(file, making::box_address(maker), setup::routing_address(s))?;
    making::continued_seen(true, v, maker, s, source, string, target)
}

// A setup continued.
#[unsafe(no_mangle)]
pub extern "C" fn dfc_continued(
    file: &[u8],
    kind: u8,
    of_type: u8,
    address: u32,
    setup: &[u8],
    source: u32,
    string: &[u8],
    target: u32,
    room: &mut [u8; 110],
) -> Answer
    ensures { (result ≡ made_said (continued_over file.now (maker_of kind of_type address) (setup_in setup.now) source string.now target))
        × (room.new ≡ made_room (continued_over file.now (maker_of kind of_type address) (setup_in setup.now) source string.now target) room.old) }
{
    let s = setupbytes::setup_in(setup);
    let maker = maker_of(kind, of_type, address);
    handed(continued_over(file, maker, s, source, string, target), room)
}

fn reversed_over(
    file: &[u8],
    maker: Maker,
    s: Setup,
    source: u32,
    string: &[u8],
    target: u32,
) -> Result<Setup, Refusal>
    ensures { result ≡ reversed_over file.now maker s source string.now target }
{
    let v = planback::scan(file, making::box_address(maker), setup::routing_address(s))?;
    making::reversed_seen(true, v, maker, s, source, string, target)
}

// A setup reversed.
#[unsafe(no_mangle)]
pub extern "C" fn dfc_reversed(
    file: &[u8],
    kind: u8,
    of_type: u8,
    address: u32,
    setup: &[u8],
    source: u32,
    string: &[u8],
    target: u32,
    room: &mut [u8; 110],
) -> Answer
    ensures { (result ≡ made_said (reversed_over file.now (maker_of kind of_type address) (setup_in setup.now) source string.now target))
        × (room.new ≡ made_room (reversed_over file.now (maker_of kind of_type address) (setup_in setup.now) source string.now target) room.old) }
{
    let s = setupbytes::setup_in(setup);
    let maker = maker_of(kind, of_type, address);
    handed(reversed_over(file, maker, s, source, string, target), room)
}

// ---- routing

// Number 0, how many types are left, and the callee box; or the refusal's number and place, and zeros.
#[repr(C)]
#[derive(Clone, Copy)]
pub struct Routed {
    pub number: u64,
    pub value: u64,
    pub kind: u64,
    pub box_number: u64,
    pub address: u64,
}

fn box_kind(c: Callee) -> u64
    ensures { result ≡ box_kind c }
{
    match c {
        Callee::Feature(_, _) => 0,
        Callee::Line(_, _) => 1,
        Callee::Trunk(_, _) => 2,
        Callee::Resource(_, _) => 3,
        Callee::Error(_) => 4,
    }
}

// (As C has it; the journey's numbers are for its text.)
fn box_number(c: Callee) -> u64
    ensures { result ≡ box_number c }
{
    match c {
        Callee::Feature(t, _) => t.into(),
        Callee::Line(n, _) | Callee::Trunk(n, _) | Callee::Resource(n, _) => n.into(),
        Callee::Error(_) => 0,
    }
}

fn box_address(c: Callee) -> u64
    ensures { result ≡ box_address c }
{
    match c {
        Callee::Feature(_, a)
        | Callee::Line(_, a)
        | Callee::Trunk(_, a)
        | Callee::Resource(_, a)
        | Callee::Error(a) => a.into(),
    }
}

fn routed_to(c: Callee, left: u8) -> Routed
    ensures { result ≡ routed_to c left }
{
    Routed {
        number: 0,
        value: left.into(),
        kind: box_kind(c),
        box_number: box_number(c),
        address: box_address(c),
    }
}

fn not_routed(r: Refusal) -> Routed
    ensures { result ≡ not_routed r }
{
    Routed {
        number: r.number().into(),
        value: answers::place_number(r.place()),
        kind: 0,
        box_number: 0,
        address: 0,
    }
}

// What routing gave: the setup received into the room, where the setup was routed.
fn received(answer: Result<routing::Routed, Refusal>, room: &mut [u8; 110]) -> Routed
    ensures { (result ≡ routed_said answer) × (room.new ≡ routed_room answer room.old) }
{
    match answer {
        Ok(a) => {
            *room = setupbytes::setup_bytes(a.setup);
            routed_to(a.callee, a.left)
        }
        Err(r) => not_routed(r),
    }
}

fn route_over(
    file: &[u8],
    out: Setup,
    source_list: &mut [u8],
    target_list: &mut [u8],
) -> Result<routing::Routed, Refusal>
    ensures { (result ≡ route_over file.now out (length source_list.old) (length target_list.old))
        × (source_list.new ≡ source_routed file.now out (length source_list.old) (length target_list.old) source_list.old)
        × (target_list.new ≡ target_routed file.now out (length source_list.old) (length target_list.old) target_list.old) }
{
    let v = planback::scan(file, out.source, routing::extracted(out))?;
    routing::route_seen(true, v, out, Ok(()), source_list, target_list)
}

// A setup routed: the callee box, and the setup that it receives, in the room; the two zones in the two lists.
#[unsafe(no_mangle)]
pub extern "C" fn dfc_route(
    file: &[u8],
    setup: &[u8],
    source_list: &mut [u8],
    target_list: &mut [u8],
    room: &mut [u8; 110],
) -> Routed
    ensures { (result ≡ routed_said (route_over file.now (setup_in setup.now) (length source_list.old) (length target_list.old)))
        × (source_list.new ≡ source_routed file.now (setup_in setup.now) (length source_list.old) (length target_list.old) source_list.old)
        × (target_list.new ≡ target_routed file.now (setup_in setup.now) (length source_list.old) (length target_list.old) target_list.old)
        × (room.new ≡ routed_room (route_over file.now (setup_in setup.now) (length source_list.old) (length target_list.old)) room.old) }
{
    let out = setupbytes::setup_in(setup);
    received(route_over(file, out, source_list, target_list), room)
}

// ---- calls
ghost use Rattle.std.specs.Prelude.{[], ◌∷◌};
ghost use Rattle.call.specs.Protocol.{step};
ghost use Rattle.call.specs.Row.{turn, command as by-command};
ghost use Rattle.recordbytes.specs.Records.{call_at};
ghost use Rattle.recordbytes.specs.Steps.{step_at};
ghost use Rattle.recordbytes.specs.Numbers.{command_of, commanded_said, reply_said};
ghost use Rattle.rowbytes.specs.Rows.{row_in, cleared_in, commanded_in};
ghost use Rattle.dfc.specs.Calls.{placed_as, placed_said, placed_room, place_over, row_placed, port_placed, source_placed, target_placed};

use recordbytes::Commanded;

// What routing says, and where the call was placed; beside a refusal zeros.
#[repr(C)]
#[derive(Clone, Copy)]
pub struct Placed {
    pub number: u64,
    pub value: u64,
    pub kind: u64,
    pub box_number: u64,
    pub address: u64,
    pub record_number: u64,
    pub use_number: u64,
}

// Every record of a row cleared; the bytes past the last whole record stay.
#[unsafe(no_mangle)]
pub extern "C" fn dfc_clear(row: &mut [u8])
    ensures { row.new ≡ cleared_in row.old }
{
    rowbytes::clear(row);
}

// A command for a record of a row, by its number and the use number that placing gave.
#[unsafe(no_mangle)]
pub extern "C" fn dfc_command(
    row: &mut [u8],
    record_number: usize,
    use_number: u16,
    kind: u8,
    side: u8,
    signal: u8,
    tunnel: u8,
    code: u8,
) -> Commanded
    ensures { (result ≡ reply_said (turn (row_in row.old) (by-command record_number use_number (command_of kind side signal tunnel code))).reply)
        × (row.new ≡ commanded_in row.old record_number use_number (command_of kind side signal tunnel code)) }
{
    rowbytes::command(
        row,
        record_number,
        use_number,
        kind,
        side,
        signal,
        tunnel,
        code,
    )
}

// A command for a port's record.
#[unsafe(no_mangle)]
pub extern "C" fn dfc_port_command(
    port: &mut [u8; 614],
    kind: u8,
    side: u8,
    signal: u8,
    tunnel: u8,
    code: u8,
) -> Commanded
    ensures { (result ≡ commanded_said (step (call_at port.old 0) (command_of kind side signal tunnel code)).answer)
        × (port.new ≡ (step_at port.old 0 (command_of kind side signal tunnel code)).bytes) }
{
    rowbytes::port_command(port, kind, side, signal, tunnel, code)
}

fn placed_as(q: Routed, record_number: usize, use_number: u16) -> Placed
    ensures { result ≡ placed_as q record_number use_number }
{
    Placed {
        number: q.number,
        value: q.value,
        kind: q.kind,
        box_number: q.box_number,
        address: q.address,
        record_number: record_number as u64,
        use_number: use_number.into(),
    }
}

// What placing gave: the setup received into the room, where the call was placed.
fn settled(placed: Result<placing::Placed, Refusal>, room: &mut [u8; 110]) -> Placed
    ensures { (result ≡ placed_said placed) × (room.new ≡ placed_room placed room.old) }
{
    match placed {
        Ok(z) => {
            let a = z.routed;
            *room = setupbytes::setup_bytes(a.setup);
            placed_as(routed_to(a.callee, a.left), z.record_number, z.use_number)
        }
        Err(r) => placed_as(not_routed(r), 0, 0),
    }
}

fn place_over(
    file: &[u8],
    out: Setup,
    row: &mut [u8],
    source_list: &mut [u8],
    target_list: &mut [u8],
) -> Result<placing::Placed, Refusal>
    ensures { (result ≡ place_over file.now out (row_in row.old) (length source_list.old) (length target_list.old))
        × (row.new ≡ row_placed file.now out row.old (length source_list.old) (length target_list.old))
        × (source_list.new ≡ source_placed file.now out (row_in row.old) (length source_list.old) (length target_list.old) source_list.old)
        × (target_list.new ≡ target_placed file.now out (row_in row.old) (length source_list.old) (length target_list.old) target_list.old) }
{
    let v = planback::scan(file, out.source, routing::extracted(out))?;
    rowbytes::place(true, row, v, out, source_list, target_list)
}

// A call placed in the lowest free record of a row: what routing gives, record and use number; the setup received in the room, and the two zones in the two lists.
#[unsafe(no_mangle)]
pub extern "C" fn dfc_place(
    file: &[u8],
    setup: &[u8],
    row: &mut [u8],
    source_list: &mut [u8],
    target_list: &mut [u8],
    room: &mut [u8; 110],
) -> Placed
    ensures { (result ≡ placed_said (place_over file.now (setup_in setup.now) (row_in row.old) (length source_list.old) (length target_list.old)))
        × (row.new ≡ row_placed file.now (setup_in setup.now) row.old (length source_list.old) (length target_list.old))
        × (source_list.new ≡ source_placed file.now (setup_in setup.now) (row_in row.old) (length source_list.old) (length target_list.old) source_list.old)
        × (target_list.new ≡ target_placed file.now (setup_in setup.now) (row_in row.old) (length source_list.old) (length target_list.old) target_list.old)
        × (room.new ≡ placed_room (place_over file.now (setup_in setup.now) (row_in row.old) (length source_list.old) (length target_list.old)) room.old) }
{
    let out = setupbytes::setup_in(setup);
    settled(place_over(file, out, row, source_list, target_list), room)
}

fn port_place_over(
    file: &[u8],
    out: Setup,
    port: &mut [u8; 614],
    source_list: &mut [u8],
    target_list: &mut [u8],
) -> Result<placing::Placed, Refusal>
    ensures { (result ≡ place_over file.now out (call_at port.old 0 ∷ []) (length source_list.old) (length target_list.old))
        × (port.new ≡ port_placed file.now out port.old (length source_list.old) (length target_list.old))
        × (source_list.new ≡ source_placed file.now out (call_at port.old 0 ∷ []) (length source_list.old) (length target_list.old) source_list.old)
        × (target_list.new ≡ target_placed file.now out (call_at port.old 0 ∷ []) (length source_list.old) (length target_list.old) target_list.old) }
{
    let v = planback::scan(file, out.source, routing::extracted(out))?;
    rowbytes::port_place(true, port, v, out, source_list, target_list)
}

// A call placed in a port's record, as in a row of one.
#[unsafe(no_mangle)]
pub extern "C" fn dfc_port_place(
    file: &[u8],
    setup: &[u8],
    port: &mut [u8; 614],
    source_list: &mut [u8],
    target_list: &mut [u8],
    room: &mut [u8; 110],
) -> Placed
    ensures { (result ≡ placed_said (place_over file.now (setup_in setup.now) (call_at port.old 0 ∷ []) (length source_list.old) (length target_list.old)))
        × (port.new ≡ port_placed file.now (setup_in setup.now) port.old (length source_list.old) (length target_list.old))
        × (source_list.new ≡ source_placed file.now (setup_in setup.now) (call_at port.old 0 ∷ []) (length source_list.old) (length target_list.old) source_list.old)
        × (target_list.new ≡ target_placed file.now (setup_in setup.now) (call_at port.old 0 ∷ []) (length source_list.old) (length target_list.old) target_list.old)
        × (room.new ≡ placed_room (place_over file.now (setup_in setup.now) (call_at port.old 0 ∷ []) (length source_list.old) (length target_list.old)) room.old) }
{
    let out = setupbytes::setup_in(setup);
    settled(
        port_place_over(file, out, port, source_list, target_list),
        room,
    )
}
