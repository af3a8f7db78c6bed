// Ports and rows: calls where they are lent (01 'Calls'). A trunk port is one record lent by `&mut`, an exchange a row of records lent as a slice. Commands for them are in the crate `commanding`.
// The functions that touch what is lent are thin.
#![tactic(auto)]

ghost use Rattle.std.specs.Prelude.{◌≡◌, length, set, replicate};
ghost use Rattle.call.specs.Protocol.{cleared};
ghost use Rattle.call.specs.Row.{record_at, lowest_free};
ghost use Rattle.exchange.specs.Lent as spec;

use call::Call;

// A RECORD OF A ROW, if the row has it
pub fn copy_out(row: &[Call], r: usize) -> Option<Call>
    ensures { result ≡ spec.taken_at row.now r }
{
    row.get(r).copied()
}

// Nothing is stored past the end.
pub fn store(row: &mut [Call], r: usize, c: Call)
    ensures { row.new ≡ set row.old r c }
{
    if r < row.len() {
        row[r] = c;
    }
}

// The lowest free record; the row's length where none is free. (The length and no `Option`: `lowest_free` (call/Row) is a number, and 16 and 11 are told by comparing it.)
pub fn lowest_free(row: &[Call]) -> usize
    ensures { result ≡ lowest_free row.now }
{
    row.iter().position(|c| c.is_free()).unwrap_or(row.len())
}

// CLEARING
pub fn clear_port(port: &mut Call)
    ensures { port.new ≡ cleared }
{
    *port = Call::cleared();
}

pub fn clear(row: &mut [Call])
    ensures { row.new ≡ replicate (length row.old) cleared }
{
    row.fill(Call::cleared());
}
