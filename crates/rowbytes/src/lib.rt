// A row of calls, or a port's one, in lent bytes: 614 to a record, for programs in other languages (01 'Calls'). What a record does with a command is in `recordbytes`, and placing decides by its functions of values; here a
// record is found, and a call placed in it. Nothing else is touched, and no refusal changes a byte.
#![tactic(auto)]

ghost use Rattle.std.specs.Prelude.{◌≡◌, ◌+◌, ◌<◌, ◌≤◌, true, [], ◌∷◌, Err, length, replicate};
ghost use Rattle.std.proofs.lemmas.List.Edits.{sets};
ghost use Rattle.plan.specs.declared.Plan.{Plan};
ghost use Rattle.plan.specs.Find.{seen};
ghost use Rattle.routing.specs.Steps.{target1};
ghost use Rattle.routing.specs.Routing.{source_list_after, target_list_after};
ghost use Rattle.routing.specs.Places.{KeptBeside};
ghost use Rattle.call.specs.Protocol.{is_free, step, cleared};
ghost use Rattle.call.specs.Row.{lowest_free, record_at, command as by-command, turn};
ghost use Rattle.placing.specs.Rows.{outcome_in_by, placed_in_by, row_after_by, turned};
ghost use Rattle.recordbytes.specs.Records.{call_at};
ghost use Rattle.recordbytes.specs.Steps.{step_at};
ghost use Rattle.recordbytes.specs.Numbers.{command_of, commanded_said, reply_said, in_word};
ghost use Rattle.rowbytes.specs.Rows.{records_in, row_in, cleared_in, commanded_in, placed_by};
ghost use Rattle.rowbytes.specs.Parts.{found_in, commanded_by, put_placed};

use placing::Placed;
use plan::Seen;
use recordbytes::Commanded;
use refusal::Refusal;
use setup::Setup;

// ---- a record of the row

// Whether the record at a place within the row is free, by its two states alone.
fn free_in(row: &[u8], at: usize) -> bool
    requires { at + 614 ≤ length row.now }
    ensures { result ≡ is_free (call_at row.now at) }
{
    row[at] == 0 && row[at + 1] == 0
}

// The lowest free record; how many there are where none is free, as `lowest_free` (call/Row) says it. By number: a record is 614 bytes from a place on.
pub fn lowest_free(row: &[u8]) -> usize
    ensures { result ≡ lowest_free (row_in row.now) }
{
    let n = row.len() / 614;
    for i in 0..n {
        if free_in(row, 614 * i) {
            return i;
        }
    }
    n
}

// The use number of a record, by its two bytes; 0 where the row has no such record, as a missing record is a cleared one (`record_at`). A row's operations need no more of a record than this and its states, so that none is read whole.
fn use_at(row: &[u8], r: usize) -> u16
    ensures { result ≡ (record_at (row_in row.now) r).use_number }
{
    if r < row.len() / 614 {
        let at = 614 * r;
        u16::from_be_bytes([row[at + 2], row[at + 3]])
    } else {
        0
    }
}

// ---- clearing

// Every record cleared. A cleared record's bytes are all 0.
pub fn clear(row: &mut [u8])
    ensures { (row.new ≡ cleared_in row.old) × (row_in row.new ≡ replicate (records_in row.old) cleared) }
{
    let end = row.len() / 614 * 614;
    row[..end].fill(0);
}

// ---- commands

// The record r, where it is not free and of this use: 16, 10.
#[tactic(auto, using(crate::proofs::Turns::found_cases))]
fn found_named(row: &[u8], r: usize, use_number: u16) -> Result<usize, Refusal>
    ensures { result ≡ found_in true row.now r use_number }
{
    let n = row.len() / 614;
    if 1024 < n {
        return Err(Refusal::RowTooLong);
    }
    if n <= r {
        return Err(Refusal::NoSuchCall);
    }
    let at = 614 * r;
    if free_in(row, at) {
        return Err(Refusal::NoSuchCall);
    }
    if use_at(row, r) != use_number {
        return Err(Refusal::NoSuchCall);
    }
    Ok(at)
}

fn look(row: &[u8], named: bool, r: usize, use_number: u16) -> Result<usize, Refusal>
    ensures { result ≡ found_in named row.now r use_number }
{
    if named {
        found_named(row, r, use_number)
    } else {
        Ok(0)
    }
}

// A refusal as a word: its number.
fn refused(x: Refusal) -> u64
    ensures { in_word result ≡ commanded_said (Err x) }
{
    u64::from(x.number())
}

// A command for the record r and this use number; or, where it is not `named`, for a port's record, which is the first. Rows and ports share this function, so that the compiler puts all of a command into one; the answer is one word, which stays in a register.
fn command_for(
    named: bool,
    row: &mut [u8],
    r: usize,
    use_number: u16,
    kind: u8,
    side: u8,
    signal: u8,
    tunnel: u8,
    code: u8,
) -> u64
    ensures { (in_word result ≡ commanded_said (commanded_by (found_in named row.old r use_number) row.old (command_of kind side signal tunnel code)).answer)
        × (row.new ≡ (commanded_by (found_in named row.old r use_number) row.old (command_of kind side signal tunnel code)).bytes) }
{
    match look(row, named, r, use_number) {
        Err(x) => refused(x),
        Ok(at) => recordbytes::command_at(row, at, kind, side, signal, tunnel, code),
    }
}

// A command for the record r and this use number. It is told by numbers (recordbytes/specs/Numbers), as C gives them, and so is the answer.
pub fn command(
    row: &mut [u8],
    r: usize,
    use_number: u16,
    kind: u8,
    side: u8,
    signal: u8,
    tunnel: u8,
    code: u8,
) -> Commanded
    ensures { (result ≡ reply_said (turn (row_in row.old) (by-command r use_number (command_of kind side signal tunnel code))).reply)
        × (row.new ≡ commanded_in row.old r use_number (command_of kind side signal tunnel code))
        × (row_in row.new ≡ (turn (row_in row.old) (by-command r use_number (command_of kind side signal tunnel code))).row) }
{
    let word = command_for(true, row, r, use_number, kind, side, signal, tunnel, code);
    recordbytes::answer_in(word)
}

// ---- placing

fn blank(row: &mut [u8], at: usize)
    requires { at + 614 ≤ length row.old }
    ensures { row.new ≡ sets row.old at (replicate 614 0) }
{
    row[at..at + 614].fill(0);
}

// A call placed under this use number is stored, where the row has the record: the caller requests, the callee waits, and nothing waits for either, so that all past the first four bytes is 0.
fn put_placed(row: &mut [u8], r: usize, use_number: u16)
    ensures { row.new ≡ put_placed row.old r use_number }
{
    if r < row.len() / 614 {
        let at = 614 * r;
        let [high, low] = use_number.to_be_bytes();
        blank(row, at);
        row[at] = 1;
        row[at + 1] = 2;
        row[at + 2] = high;
        row[at + 3] = low;
    }
}

// A call is placed in the row's lowest free record, by what a plan shows of the setup's source and of its target after step 1, and by a verdict on the plan: `kept` says whether it is sound. Of what
// no plan shows it is only promised that a refusal leaves the row and both lists as they were.
pub fn place(
    kept: bool,
    row: &mut [u8],
    v: Seen,
    out: Setup,
    source_list: &mut [u8],
    target_list: &mut [u8],
) -> Result<Placed, Refusal>
    ensures value { (p : Plan) → seen p out.source (target1 out) ≡ v
        → (result ≡ placed_in_by kept (row_in row.old) p out (length source_list.old) (length target_list.old))
        × (row.new ≡ placed_by (turned (row_in row.old) (outcome_in_by kept (row_in row.old) p out (length source_list.old) (length target_list.old))).reply row.old)
        × (row_in row.new ≡ row_after_by kept (row_in row.old) p out (length source_list.old) (length target_list.old))
        × (source_list.new ≡ source_list_after p out (outcome_in_by kept (row_in row.old) p out (length source_list.old) (length target_list.old)) source_list.old)
        × (target_list.new ≡ target_list_after p out (outcome_in_by kept (row_in row.old) p out (length source_list.old) (length target_list.old)) target_list.old) }
    ensures unchanged { KeptBeside result row.old row.new × KeptBeside result source_list.old source_list.new × KeptBeside result target_list.old target_list.new }
{
    let n = row.len() / 614;
    let r = lowest_free(row);
    let later = placing::later_for(n, r);
    let routed = routing::route_seen(kept, v, out, later, source_list, target_list)?;
    let use_number = use_at(row, r).wrapping_add(1);
    put_placed(row, r, use_number);
    Ok(Placed {
        record_number: r,
        use_number,
        routed,
    })
}

// ---- a port: a row of one

// A command for the port's record, told by numbers as in a row.
pub fn port_command(
    port: &mut [u8; 614],
    kind: u8,
    side: u8,
    signal: u8,
    tunnel: u8,
    code: u8,
) -> Commanded
    ensures { (result ≡ commanded_said (step (call_at port.old 0) (command_of kind side signal tunnel code)).answer)
        × (port.new ≡ (step_at port.old 0 (command_of kind side signal tunnel code)).bytes)
        × (call_at port.new 0 ≡ (step (call_at port.old 0) (command_of kind side signal tunnel code)).call) }
{
    let word = command_for(false, port, 0, 0, kind, side, signal, tunnel, code);
    recordbytes::answer_in(word)
}

// A call is placed in the port's record, as in a row of one, by what a plan shows and a verdict on it; of what no plan shows as in a row.
pub fn port_place(
    kept: bool,
    port: &mut [u8; 614],
    v: Seen,
    out: Setup,
    source_list: &mut [u8],
    target_list: &mut [u8],
) -> Result<Placed, Refusal>
    ensures value { (p : Plan) → seen p out.source (target1 out) ≡ v
        → (result ≡ placed_in_by kept (call_at port.old 0 ∷ []) p out (length source_list.old) (length target_list.old))
        × (port.new ≡ placed_by (turned (call_at port.old 0 ∷ []) (outcome_in_by kept (call_at port.old 0 ∷ []) p out (length source_list.old) (length target_list.old))).reply port.old)
        × (call_at port.new 0 ≡ record_at (row_after_by kept (call_at port.old 0 ∷ []) p out (length source_list.old) (length target_list.old)) 0)
        × (source_list.new ≡ source_list_after p out (outcome_in_by kept (call_at port.old 0 ∷ []) p out (length source_list.old) (length target_list.old)) source_list.old)
        × (target_list.new ≡ target_list_after p out (outcome_in_by kept (call_at port.old 0 ∷ []) p out (length source_list.old) (length target_list.old)) target_list.old) }
    ensures unchanged { KeptBeside result port.old port.new × KeptBeside result source_list.old source_list.new × KeptBeside result target_list.old target_list.new }
{
    place(kept, port, v, out, source_list, target_list)
}
