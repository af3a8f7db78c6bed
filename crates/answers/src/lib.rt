// What the archives tell a C program: a number and a value.
#![tactic(auto)]

ghost use Rattle.std.specs.Prelude.{◌≡◌};
ghost use Rattle.answers.specs.Said.{place_number, accepted, refusal, answered};

use refusal::Refusal;

// Number 0 and the operation's value; or the number of a refusal and its place, 0 where it has none.
#[repr(C)]
#[derive(Clone, Copy)]
pub struct Answer {
    pub number: u64,
    pub value: u64,
}

pub fn accepted(value: u64) -> Answer
    ensures { result ≡ accepted value }
{
    Answer { number: 0, value }
}

// The place of a refusal as a number.
pub fn place_number(place: Option<usize>) -> u64
    ensures { result ≡ place_number place }
{
    place.map_or(0, |n| n as u64)
}

pub fn refused(r: Refusal) -> Answer
    ensures { result ≡ refusal r }
{
    Answer {
        number: r.number().into(),
        value: place_number(r.place()),
    }
}

// What an operation answers with: its value, or the refusal.
pub fn answered(r: Result<u64, Refusal>) -> Answer
    ensures { result ≡ answered r }
{
    match r {
        Ok(value) => accepted(value),
        Err(refusal) => refused(refusal),
    }
}
