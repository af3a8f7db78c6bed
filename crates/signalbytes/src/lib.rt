// The numbers of an end's states and of the signals, for programs in other languages: those of a record's bytes, of commands and of logs. Any number is read back. (Functions, and no `From`: the types stand in `ends`, which knows no numbers.)
#![tactic(auto)]

ghost use Rattle.std.specs.Prelude.{◌≡◌};
ghost use Rattle.signalbytes.specs.Numbers.{state_number, status_number, status_code, signal_number, signal_tunnel, signal_code, state_said, status_said, signal_said};

use ends::{Signal, State, Status};

// ---- the numbers of the cases

pub fn state_number(s: State) -> u8
    ensures { result ≡ state_number s }
{
    match s {
        State::Idle => 0,
        State::Requesting => 1,
        State::Waiting => 2,
        State::Linked => 3,
        State::Unlinking => 4,
    }
}

fn status_number(s: Status) -> u8
    ensures { result ≡ status_number s }
{
    match s {
        Status::Unknown => 3,
        Status::Avail => 4,
        Status::Unavail => 5,
        Status::None => 6,
        Status::Dtmf(_) => 7,
        Status::Special(_) => 8,
        Status::Open => 11,
        Status::Oack => 12,
        Status::Onack => 13,
        Status::Ready => 14,
        Status::Close => 15,
        Status::Closeack => 16,
    }
}

fn status_code(s: Status) -> u8
    ensures { result ≡ status_code s }
{
    match s {
        Status::Dtmf(n) | Status::Special(n) => n,
        _ => 0,
    }
}

pub fn signal_number(x: Signal) -> u8
    ensures { result ≡ signal_number x }
{
    match x {
        Signal::Upack => 2,
        Signal::Teardown => 9,
        Signal::Downack => 10,
        Signal::Ordinary(_, s) => status_number(s),
    }
}

pub fn signal_tunnel(x: Signal) -> u8
    ensures { result ≡ signal_tunnel x }
{
    match x {
        Signal::Ordinary(t, _) => t,
        _ => 0,
    }
}

pub fn signal_code(x: Signal) -> u8
    ensures { result ≡ signal_code x }
{
    match x {
        Signal::Ordinary(_, s) => status_code(s),
        _ => 0,
    }
}

// ---- and back: any number

pub fn state_said(n: u8) -> State
    ensures { result ≡ state_said n }
{
    match n {
        0 => State::Idle,
        1 => State::Requesting,
        2 => State::Waiting,
        3 => State::Linked,
        _ => State::Unlinking,
    }
}

// A number that is no status' says a dtmf without a symbol, which may not be sent and which no end takes.
pub fn status_said(n: u8, code: u8) -> Status
    ensures { result ≡ status_said n code }
{
    match n {
        3 => Status::Unknown,
        4 => Status::Avail,
        5 => Status::Unavail,
        6 => Status::None,
        7 => Status::Dtmf(code),
        8 => Status::Special(code),
        11 => Status::Open,
        12 => Status::Oack,
        13 => Status::Onack,
        14 => Status::Ready,
        15 => Status::Close,
        16 => Status::Closeack,
        _ => Status::Dtmf(255),
    }
}

pub fn signal_said(n: u8, tunnel: u8, code: u8) -> Signal
    ensures { result ≡ signal_said n tunnel code }
{
    match n {
        0 | 2 => Signal::Upack,
        9 => Signal::Teardown,
        10 => Signal::Downack,
        _ => Signal::Ordinary(tunnel, status_said(n, code)),
    }
}
