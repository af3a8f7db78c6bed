// Text in lent bytes: bytes stored from a place on, and numbers as decimal digits.
#![tactic(auto)]

ghost use Rattle.std.specs.Prelude.{◌≡◌, length, min, take};
ghost use Rattle.std.proofs.lemmas.List.Edits.{sets};
ghost use Rattle.text.specs.Decimal.{size, digits};

// The decimal digits of a number: the first len places. A fixed array: the libraries have no heap.
#[derive(Clone, Copy)]
pub struct Digits {
    pub bytes: [u8; 10],
    pub len: u8,
}

impl Digits {
    pub fn as_slice(&self) -> &[u8]
        ensures { result.now ≡ take (min self.now.len 10) self.now.bytes }
    {
        &self.bytes[..usize::from(self.len).min(10)]
    }
}

// What the digits count, from the last.
const TENS: [u32; 10] = [
    1, 10, 100, 1000, 10000, 100000, 1000000, 10000000, 100000000, 1000000000,
];

// How many digits a number has.
fn size(n: u32) -> usize
    ensures { result ≡ size n }
{
    TENS[1..].iter().position(|ten| n < *ten).unwrap_or(9) + 1
}

// The decimal digits of a number, high digit first.
pub fn decimal(n: u32) -> Digits
    ensures { result ≡ digits n }
{
    let tens = TENS;
    let len = size(n);
    let mut bytes = [0u8; 10];
    // By the place, as `zip` is no plainer: it counts up in the bytes and down in the counts.
    for i in 0usize..len {
        let ten = tens[len - 1 - i];
        bytes[i] = (48 + n / ten % 10) as u8;
    }
    Digits {
        bytes,
        len: len as u8,
    }
}

// Bytes into a part of a room that is as long.
fn store(part: &mut [u8], bytes: &[u8])
    requires { length part.old ≡ length bytes.now }
    ensures { part.new ≡ bytes.now }
{
    part.copy_from_slice(bytes);
}

// Stores bytes in a lent room from one place on: as many as fit; what is past the room's end is left out.
pub fn put(bytes: &[u8], at: usize, room: &mut [u8])
    ensures { room.new ≡ sets room.old at bytes.now }
{
    let from = at.min(room.len());
    let n = bytes.len().min(room.len() - from);
    store(&mut room[from..from + n], &bytes[..n]);
}
