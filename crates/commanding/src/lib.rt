// Commands for calls in ports and rows, where they are lent (01 'Calls'): the record is stepped where it stands.
// The functions that touch what is lent are thin; a record's step is decided by `Call::step`, a function of values.
#![tactic(auto)]

ghost use Rattle.std.specs.Prelude.{◌≡◌};
ghost use Rattle.call.specs.Protocol.{step};
ghost use Rattle.call.specs.Row.{command as by-command, in_use, turn};
ghost use Rattle.exchange.specs.Lent as lent;
ghost use Rattle.commanding.specs.Lent.{commanded};

use call::{Call, Command, Signal};
use refusal::Refusal;

// A port has one record, so a command names none: neither 16 nor 10.
pub fn port_command(port: &mut Call, k: Command) -> Result<Option<Signal>, Refusal>
    ensures { (result ≡ (step port.old k).answer) × (port.new ≡ (step port.old k).call) }
{
    let s = (*port).step(k);
    *port = s.call;
    s.answer
}

// Whether a record can be commanded by this use number.
fn is_in_use(c: Call, use_number: u16) -> bool
    ensures { result ≡ in_use c use_number }
{
    !c.is_free() && c.use_number == use_number
}

// A command for the record r and this use number: 16, 10, or the record's own step. Every other record stays as it was.
pub fn command(
    row: &mut [Call],
    r: usize,
    use_number: u16,
    k: Command,
) -> Result<Option<Signal>, Refusal>
    ensures { (lent.answering result row.new ≡ turn row.old (by-command r use_number k))
        × (lent.answering result row.new ≡ commanded row.old r use_number k) }
{
    if 1024 < row.len() {
        return Err(Refusal::RowTooLong);
    }
    if r < row.len() && is_in_use(row[r], use_number) {
        port_command(&mut row[r], k)
    } else {
        Err(Refusal::NoSuchCall)
    }
}
