// Placing a call in a port or in a row, where they are lent (01 'Calls'): 23, 5, 18, 16, 11, in this order; on any refusal no list, no record and no byte is changed.
#![tactic(auto)]

ghost use Rattle.std.specs.Prelude.{◌≡◌, [], ◌∷◌, length};
ghost use Rattle.routing.specs.Routing.{source_list_after, target_list_after};
ghost use Rattle.call.specs.Protocol.{placing_in};
ghost use Rattle.call.specs.Row.{record_at};
ghost use Rattle.placing.specs.Parts as parts;
ghost use Rattle.placing.specs.Rows.{later_by, later_for, outcome_in, placed_in, row_after};

use call::Call;
use plan::Plan;
use refusal::Refusal;
use routing::Routed;
use setup::Setup;

// Where a call was placed, and what routing gave.
#[derive(Clone, Copy)]
pub struct Placed {
    pub record_number: usize,
    pub use_number: u16,
    pub routed: Routed,
}

// What a row of this length, with this lowest free record, refuses by itself: 16, 11. (The length and no `Option`: `lowest_free` (call/Row) is a number, and 16 and 11 are told by comparing it.)
pub fn later_for(length: usize, free: usize) -> Result<(), Refusal>
    ensures { result ≡ later_by length free }
{
    if 1024 < length {
        return Err(Refusal::RowTooLong);
    }
    if free < length {
        Ok(())
    } else {
        Err(Refusal::NoFreeRecord)
    }
}

// The same for a port, a row of one: its lowest free record is 0, or 1 where it is not free.
fn port_later(c: Call) -> Result<(), Refusal>
    ensures { result ≡ later_for (c ∷ []) }
{
    let free = if c.is_free() { 0 } else { 1 };
    later_for(1, free)
}

// A call that was routed is placed in the record r.
fn put(call: &mut Call, r: usize, routed: Routed) -> Placed
    ensures answer { result ≡ parts.put_as r call.old routed }
    ensures record { call.new ≡ (placing_in call.old).call }
{
    let after = (*call).placed().call;
    *call = after;
    Placed {
        record_number: r,
        use_number: after.use_number,
        routed,
    }
}

// A call is placed in the port's record, as in a row of one. (Through `place` it is no plainer: a slice of one has to be made of the port, and its record taken from it again.)
pub fn place_port(
    port: &mut Call,
    plan: Plan,
    out: Setup,
    source_list: &mut [u8],
    target_list: &mut [u8],
) -> Result<Placed, Refusal>
    ensures { (result ≡ placed_in (port.old ∷ []) plan out (length source_list.old) (length target_list.old))
        × (port.new ≡ record_at (row_after (port.old ∷ []) plan out (length source_list.old) (length target_list.old)) 0)
        × (source_list.new ≡ source_list_after plan out (outcome_in (port.old ∷ []) plan out (length source_list.old) (length target_list.old)) source_list.old)
        × (target_list.new ≡ target_list_after plan out (outcome_in (port.old ∷ []) plan out (length source_list.old) (length target_list.old)) target_list.old) }
{
    let later = port_later(*port);
    let routed = routing::route_unless(plan, out, later, source_list, target_list)?;
    Ok(put(port, 0, routed))
}

// A call is placed in the row's lowest free record. Every other record stays as it was.
pub fn place(
    row: &mut [Call],
    plan: Plan,
    out: Setup,
    source_list: &mut [u8],
    target_list: &mut [u8],
) -> Result<Placed, Refusal>
    ensures { (result ≡ placed_in row.old plan out (length source_list.old) (length target_list.old))
        × (row.new ≡ row_after row.old plan out (length source_list.old) (length target_list.old))
        × (source_list.new ≡ source_list_after plan out (outcome_in row.old plan out (length source_list.old) (length target_list.old)) source_list.old)
        × (target_list.new ≡ target_list_after plan out (outcome_in row.old plan out (length source_list.old) (length target_list.old)) target_list.old) }
{
    let r = exchange::lowest_free(row);
    let later = later_for(row.len(), r);
    let routed = routing::route_unless(plan, out, later, source_list, target_list)?;
    Ok(put(&mut row[r], r, routed))
}
