// What the calls' script (`call_trials`) is made of: the words of a line, what it asks with them and what came, told in them; and records by value that are lent to the operations on structs.
#![tactic(auto)]

pub mod asked;
pub mod told;

ghost use Rattle.std.specs.Prelude.{◌≡◌, [], ◌∷◌, length};
ghost use Rattle.call.specs.Protocol.{step};
ghost use Rattle.routing.specs.Routing.{source_list_after, target_list_after};
ghost use Rattle.placing.specs.Rows.{outcome_in};
ghost use Rattle.call_script.specs.Lent as spec;

use call::{Call, Command, Signal, Step};
use placing::Placed;
use plan::Plan;
use refusal::Refusal;
use setup::Setup;

// ---- lent structs: a local record, or the first of four, is lent to the operation and taken back

// A command for a port that is this record; the record after it stands beside the answer.
pub fn port_command_in(mut port: Call, k: Command) -> Step
    ensures { result ≡ step port k }
{
    let answer = commanding::port_command(&mut port, k);
    Step { answer, call: port }
}

// What a command answers, and the records after it. (This struct and the two below: each has its own fields; a pair would lose the names.)
#[derive(Clone, Copy)]
pub struct Answered {
    pub answer: Result<Option<Signal>, Refusal>,
    pub calls: [Call; 4],
}

// How many of four records are the row: no more than there are.
fn within(n: usize) -> usize
    ensures { result ≡ spec.within n }
{
    n.min(4)
}

// A command for a row that is the first n of these records.
pub fn command_in(mut calls: [Call; 4], n: usize, r: usize, use_number: u16, k: Command) -> Answered
    ensures { result ≡ spec.commanded_in calls n r use_number k }
{
    let n = within(n);
    let answer = commanding::command(&mut calls[..n], r, use_number, k);
    Answered { answer, calls }
}

// What placing answers, and the port's record after it.
#[derive(Clone, Copy)]
pub struct PortPlaced {
    pub call: Call,
    pub placed: Result<Placed, Refusal>,
}

pub fn place_port_in(
    mut port: Call,
    plan: Plan,
    out: Setup,
    source_list: &mut [u8],
    target_list: &mut [u8],
) -> PortPlaced
    ensures { (result ≡ spec.port_placed port plan out (length source_list.old) (length target_list.old))
        × (source_list.new ≡ source_list_after plan out (outcome_in (port ∷ []) plan out (length source_list.old) (length target_list.old)) source_list.old)
        × (target_list.new ≡ target_list_after plan out (outcome_in (port ∷ []) plan out (length source_list.old) (length target_list.old)) target_list.old) }
{
    let placed = placing::place_port(&mut port, plan, out, source_list, target_list);
    PortPlaced { call: port, placed }
}

// What placing answers, and the records after it.
#[derive(Clone, Copy)]
pub struct RowPlaced {
    pub placed: Result<Placed, Refusal>,
    pub calls: [Call; 4],
}

// A call is placed in a row that is the first n of these records.
pub fn place_in(
    mut calls: [Call; 4],
    n: usize,
    plan: Plan,
    out: Setup,
    source_list: &mut [u8],
    target_list: &mut [u8],
) -> RowPlaced
    ensures { (result ≡ spec.row_placed calls n plan out (length source_list.old) (length target_list.old))
        × (source_list.new ≡ source_list_after plan out (outcome_in (spec.row_in calls n) plan out (length source_list.old) (length target_list.old)) source_list.old)
        × (target_list.new ≡ target_list_after plan out (outcome_in (spec.row_in calls n) plan out (length source_list.old) (length target_list.old)) target_list.old) }
{
    let n = within(n);
    let placed = placing::place(&mut calls[..n], plan, out, source_list, target_list);
    RowPlaced { placed, calls }
}
