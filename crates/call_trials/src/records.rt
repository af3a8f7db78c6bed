// A record's bytes, and the record of some bytes, as the script makes and reads them: the code under trial does neither, it changes a record where it stands.
ghost use Rattle.std.specs.Prelude.{◌+◌, ◌≤◌};

use call::{Call, Queue};
use ends::{End, Signal};
use std::alloc::{AllocError, Global};

// How many bytes a record has.
pub const RECORD: usize = 614;

// ---- a record's bytes

fn put_queue(bytes: &mut Vec<u8>, queue: &Queue) -> Result<(), AllocError> {
    bytes.push(queue.count)?;
    for x in queue.slots {
        bytes.push(signalbytes::signal_number(x))?;
        bytes.push(signalbytes::signal_tunnel(x))?;
        bytes.push(signalbytes::signal_code(x))?;
    }
    Ok(())
}

pub fn bytes_of(alloc: Global, c: &Call) -> Result<Vec<u8>, AllocError> {
    let mut bytes = Vec::new(alloc);
    bytes.push(signalbytes::state_number(c.caller.state))?;
    bytes.push(signalbytes::state_number(c.callee.state))?;
    bytes.extend_from_slice(&c.use_number.to_be_bytes())?;
    put_queue(&mut bytes, &c.to_caller)?;
    put_queue(&mut bytes, &c.to_callee)?;
    bytes.extend_from_slice(&c.caller.channels)?;
    bytes.extend_from_slice(&c.callee.channels)?;
    Ok(bytes)
}

// The bytes of a record that a row has: those from its place on, as many as there are.
pub fn part_of(row: &mut [u8], r: usize) -> &mut [u8] {
    let at = (r % 1025 * RECORD).min(row.len());
    let end = (at + RECORD).min(row.len());
    &mut row[at..end]
}

// ---- the record of some bytes

fn queue_in(bytes: &[u8; RECORD], at: usize) -> Queue
    requires { at + 49 ≤ 614 }
{
    let mut slots = [Signal::Upack; 16];
    for (slot, x) in slots.iter_mut().zip(bytes[at + 1..at + 49].chunks_exact(3)) {
        *slot = match x {
            [number, tunnel, code] => signalbytes::signal_said(*number, *tunnel, *code),
            _ => Signal::Upack,
        };
    }
    Queue {
        slots,
        count: bytes[at],
    }
}

fn end_in(bytes: &[u8; RECORD], state: u8, at: usize) -> End
    requires { at + 256 ≤ 614 }
{
    let mut channels = [0; 256];
    channels.copy_from_slice(&bytes[at..at + 256]);
    End {
        state: signalbytes::state_said(state),
        channels,
    }
}

pub fn read(bytes: &[u8; RECORD]) -> Call {
    Call {
        caller: end_in(bytes, bytes[0], 102),
        callee: end_in(bytes, bytes[1], 358),
        to_caller: queue_in(bytes, 4),
        to_callee: queue_in(bytes, 53),
        use_number: u16::from_be_bytes([bytes[2], bytes[3]]),
    }
}

// The record r of a row; what is missing of it is 0.
pub fn read_at(row: &[u8], r: usize) -> Call {
    let mut bytes = [0; RECORD];
    for (byte, said) in bytes.iter_mut().zip(row.iter().skip(r % 1025 * RECORD)) {
        *byte = *said;
    }
    read(&bytes)
}
