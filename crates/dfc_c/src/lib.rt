// The archive of plans, setups, routing and calls, as include/dfc.h declares it: what a C program calls is here by its name, and does what the crate `dfc` does.
#![tactic(auto)]

ghost use Rattle.std.specs.Prelude.{◌≡◌, [], ◌∷◌, length};
ghost use Rattle.dfc.specs.Said.{maker_of};
ghost use Rattle.setupbytes.specs.Codec.{setup_in};
ghost use Rattle.dfc.specs.Files.{checked, rewritten, room_rewritten, zoned, types_zoned, made_said, made_room, new_over, continued_over, reversed_over};
ghost use Rattle.dfc.specs.Routes.{routed_said, routed_room, route_over, source_routed, target_routed};
ghost use Rattle.call.specs.Protocol.{step};
ghost use Rattle.call.specs.Row.{turn, command as by-command};
ghost use Rattle.recordbytes.specs.Records.{call_at};
ghost use Rattle.recordbytes.specs.Steps.{step_at};
ghost use Rattle.recordbytes.specs.Numbers.{command_of, commanded_said, reply_said};
ghost use Rattle.rowbytes.specs.Rows.{row_in, cleared_in, commanded_in};
ghost use Rattle.dfc.specs.Calls.{placed_said, placed_room, place_over, row_placed, port_placed, source_placed, target_placed};

use answers::Answer;
use dfc::{Placed, Routed};
use recordbytes::Commanded;

// Whether some bytes are a plan file.
#[unsafe(no_mangle)]
pub extern "C" fn dfc_check(file: &[u8]) -> Answer
    ensures { result ≡ checked file.now }
{
    dfc::dfc_check(file)
}

// The plan of a file, written again into the room.
#[unsafe(no_mangle)]
pub extern "C" fn dfc_write(file: &[u8], room: &mut [u8]) -> Answer
    ensures { (result ≡ rewritten file.now room.old) × (room.new ≡ room_rewritten file.now room.old) }
{
    dfc::dfc_write(file, room)
}

// The zone of an address in a region, into 32 places, and how many types it has.
#[unsafe(no_mangle)]
pub extern "C" fn dfc_zone(file: &[u8], region: u8, address: u32, types: &mut [u8; 32]) -> Answer
    ensures { (result ≡ zoned file.now region address) × (types.new ≡ types_zoned file.now region address types.old) }
{
    dfc::dfc_zone(file, region, address, types)
}

// A new setup.
#[unsafe(no_mangle)]
pub extern "C" fn dfc_new(
    file: &[u8],
    kind: u8,
    of_type: u8,
    address: u32,
    string: &[u8],
    target: u32,
    room: &mut [u8; 110],
) -> Answer
    ensures { (result ≡ made_said (new_over file.now (maker_of kind of_type address) string.now target))
        × (room.new ≡ made_room (new_over file.now (maker_of kind of_type address) string.now target) room.old) }
{
    dfc::dfc_new(file, kind, of_type, address, string, target, room)
}

// A setup continued.
#[unsafe(no_mangle)]
pub extern "C" fn dfc_continued(
    file: &[u8],
    kind: u8,
    of_type: u8,
    address: u32,
    setup: &[u8],
    source: u32,
    string: &[u8],
    target: u32,
    room: &mut [u8; 110],
) -> Answer
    ensures { (result ≡ made_said (continued_over file.now (maker_of kind of_type address) (setup_in setup.now) source string.now target))
        × (room.new ≡ made_room (continued_over file.now (maker_of kind of_type address) (setup_in setup.now) source string.now target) room.old) }
{
    dfc::dfc_continued(
        file, kind, of_type, address, setup, source, string, target, room,
    )
}

// A setup reversed.
#[unsafe(no_mangle)]
pub extern "C" fn dfc_reversed(
    file: &[u8],
    kind: u8,
    of_type: u8,
    address: u32,
    setup: &[u8],
    source: u32,
    string: &[u8],
    target: u32,
    room: &mut [u8; 110],
) -> Answer
    ensures { (result ≡ made_said (reversed_over file.now (maker_of kind of_type address) (setup_in setup.now) source string.now target))
        × (room.new ≡ made_room (reversed_over file.now (maker_of kind of_type address) (setup_in setup.now) source string.now target) room.old) }
{
    dfc::dfc_reversed(
        file, kind, of_type, address, setup, source, string, target, room,
    )
}

// A setup routed: the callee box, and the setup that it receives, in the room; the two zones in the two lists.
#[unsafe(no_mangle)]
pub extern "C" fn dfc_route(
    file: &[u8],
    setup: &[u8],
    source_list: &mut [u8],
    target_list: &mut [u8],
    room: &mut [u8; 110],
) -> Routed
    ensures { (result ≡ routed_said (route_over file.now (setup_in setup.now) (length source_list.old) (length target_list.old)))
        × (source_list.new ≡ source_routed file.now (setup_in setup.now) (length source_list.old) (length target_list.old) source_list.old)
        × (target_list.new ≡ target_routed file.now (setup_in setup.now) (length source_list.old) (length target_list.old) target_list.old)
        × (room.new ≡ routed_room (route_over file.now (setup_in setup.now) (length source_list.old) (length target_list.old)) room.old) }
{
    dfc::dfc_route(file, setup, source_list, target_list, room)
}

// Every record of a row cleared; the bytes past the last whole record stay.
#[unsafe(no_mangle)]
pub extern "C" fn dfc_clear(row: &mut [u8])
    ensures { row.new ≡ cleared_in row.old }
{
    dfc::dfc_clear(row);
}

// A command for a record of a row, by its number and the use number that placing gave.
#[unsafe(no_mangle)]
pub extern "C" fn dfc_command(
    row: &mut [u8],
    record_number: usize,
    use_number: u16,
    kind: u8,
    side: u8,
    signal: u8,
    tunnel: u8,
    code: u8,
) -> Commanded
    ensures { (result ≡ reply_said (turn (row_in row.old) (by-command record_number use_number (command_of kind side signal tunnel code))).reply)
        × (row.new ≡ commanded_in row.old record_number use_number (command_of kind side signal tunnel code)) }
{
    dfc::dfc_command(
        row,
        record_number,
        use_number,
        kind,
        side,
        signal,
        tunnel,
        code,
    )
}

// A command for a port's record.
#[unsafe(no_mangle)]
pub extern "C" fn dfc_port_command(
    port: &mut [u8; 614],
    kind: u8,
    side: u8,
    signal: u8,
    tunnel: u8,
    code: u8,
) -> Commanded
    ensures { (result ≡ commanded_said (step (call_at port.old 0) (command_of kind side signal tunnel code)).answer)
        × (port.new ≡ (step_at port.old 0 (command_of kind side signal tunnel code)).bytes) }
{
    dfc::dfc_port_command(port, kind, side, signal, tunnel, code)
}

// A call placed in the lowest free record of a row: what routing gives, record and use number; the setup received in the room, and the two zones in the two lists.
#[unsafe(no_mangle)]
pub extern "C" fn dfc_place(
    file: &[u8],
    setup: &[u8],
    row: &mut [u8],
    source_list: &mut [u8],
    target_list: &mut [u8],
    room: &mut [u8; 110],
) -> Placed
    ensures { (result ≡ placed_said (place_over file.now (setup_in setup.now) (row_in row.old) (length source_list.old) (length target_list.old)))
        × (row.new ≡ row_placed file.now (setup_in setup.now) row.old (length source_list.old) (length target_list.old))
        × (source_list.new ≡ source_placed file.now (setup_in setup.now) (row_in row.old) (length source_list.old) (length target_list.old) source_list.old)
        × (target_list.new ≡ target_placed file.now (setup_in setup.now) (row_in row.old) (length source_list.old) (length target_list.old) target_list.old)
        × (room.new ≡ placed_room (place_over file.now (setup_in setup.now) (row_in row.old) (length source_list.old) (length target_list.old)) room.old) }
{
    dfc::dfc_place(file, setup, row, source_list, target_list, room)
}

// A call placed in a port's record, as in a row of one.
#[unsafe(no_mangle)]
pub extern "C" fn dfc_port_place(
    file: &[u8],
    setup: &[u8],
    port: &mut [u8; 614],
    source_list: &mut [u8],
    target_list: &mut [u8],
    room: &mut [u8; 110],
) -> Placed
    ensures { (result ≡ placed_said (place_over file.now (setup_in setup.now) (call_at port.old 0 ∷ []) (length source_list.old) (length target_list.old)))
        × (port.new ≡ port_placed file.now (setup_in setup.now) port.old (length source_list.old) (length target_list.old))
        × (source_list.new ≡ source_placed file.now (setup_in setup.now) (call_at port.old 0 ∷ []) (length source_list.old) (length target_list.old) source_list.old)
        × (target_list.new ≡ target_placed file.now (setup_in setup.now) (call_at port.old 0 ∷ []) (length source_list.old) (length target_list.old) target_list.old)
        × (room.new ≡ placed_room (place_over file.now (setup_in setup.now) (call_at port.old 0 ∷ []) (length source_list.old) (length target_list.old)) room.old) }
{
    dfc::dfc_port_place(file, setup, port, source_list, target_list, room)
}
