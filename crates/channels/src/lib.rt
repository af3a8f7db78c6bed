// The channel protocol (02 'Ask 2', manual 9.4): one table for both roles, what is sent and what is taken.
#![tactic(auto)]

ghost use Rattle.std.specs.Prelude.{◌≡◌, ◌≤◌, ◌<◌};
ghost use Rattle.channels.specs.Channels as spec;
ghost use Rattle.channels.specs.Layout as layout;

// A line for each state, with a hexadecimal digit for each kind of signal: open, oack, onack, ready, close, closeack, status. The digit is the next state, or 9 where there is no step.
const TABLE: [u32; 36] = [
    // The opener sends.
    0x1999999, // unused
    0x9999499, // opening
    0x9993499, // oacked
    0x9999493, // readying
    0x9999999, // closing
    0x9999969, // closing2
    0x9999999, // closing3
    0x9999989, // closed
    0x9999999, // end_chan
    // The opener takes.
    0x9999999, // unused
    0x9289999, // opening
    0x9999799, // oacked
    0x9999793, // readying
    0x9449584, // closing
    0x9999989, // closing2
    0x9999989, // closing3
    0x9999999, // closed
    0x9999999, // end_chan
    // The answerer sends.
    0x9999999, // unused
    0x9289999, // opened
    0x9999499, // oacking
    0x9999493, // readied
    0x9999999, // closing
    0x9999969, // closing2
    0x9999999, // closing3
    0x9999989, // closed
    0x9999999, // end_chan
    // The answerer takes.
    0x1999999, // unused
    0x9999799, // opened
    0x9993799, // oacking
    0x9999793, // readied
    0x9994584, // closing
    0x9999989, // closing2
    0x9999989, // closing3
    0x9999999, // closed
    0x9999799, // end_chan
];

// Where the part of a role for what is sent or taken begins. (`sends` is a word of the table's four parts, no step.)
fn part(opens: bool, sends: bool) -> u8
    ensures { (result ≡ layout.part opens sends) × (result ≤ 27) }
{
    match (opens, sends) {
        (true, true) => 0,
        (true, false) => 9,
        (false, true) => 18,
        (false, false) => 27,
    }
}

// The place of a kind's digit in a line.
#[tactic(auto, unfolding(crate::specs::Layout::column))]
fn column(kind: u8) -> u32
    ensures { (result ≡ layout.column kind) × (0 < result) }
{
    match kind {
        0 => 0x1000000,
        1 => 0x100000,
        2 => 0x10000,
        3 => 0x1000,
        4 => 0x100,
        5 => 0x10,
        _ => 1,
    }
}

// The next state of a channel; 9 where there is no step. (States and kinds stay numbers: a record's bytes may hold any number for a channel, and keep it; 9 is a digit of the table, and `follows` (channels/Channels) names it.)
pub fn follows(opens: bool, sends: bool, state: u8, kind: u8) -> u8
    ensures { result ≡ spec.follows opens sends state kind }
{
    if state < 9 && kind < 7 {
        let line = TABLE[usize::from(part(opens, sends) + state)];
        (line / column(kind) % 16) as u8
    } else {
        9
    }
}
