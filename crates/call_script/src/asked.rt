// What the words of a line stand for: sides, signals, commands, and a call record.
use call::{Call, Command, End, Queue, Side, Signal, State, Status};
use console::{Word, after, behind, number_after, says};

// The names that a line may ask with. The last ones only make a line easier to read, or say what is placed.
const NAMES: [&str; 43] = [
    "idle",
    "requesting",
    "waiting",
    "linked",
    "unlinking",
    "upack",
    "teardown",
    "downack",
    "unknown",
    "avail",
    "unavail",
    "none",
    "dtmf",
    "special",
    "open",
    "oack",
    "onack",
    "ready",
    "close",
    "closeack",
    "accept",
    "busy",
    "unobtainable",
    "send",
    "deliver",
    "place",
    "show",
    "port",
    "row",
    "record",
    "caller",
    "callee",
    "use",
    "to",
    "tunnel",
    "channels",
    "then",
    "full",
    "of",
    "in",
    "broken",
    "malformed",
    "short",
];

fn byte(n: u64) -> u8 {
    u8::try_from(n).unwrap_or(0)
}

// 0 where the word there is no byte. (0 and no `Option`, here and below: each caller would put 0 in its place.)
fn byte_at(words: &[Word], i: usize) -> u8 {
    match words.get(i) {
        Some(Word::Number(n)) => byte(*n),
        _ => 0,
    }
}

fn small(n: u64) -> usize {
    (n % 1_000_000_000) as usize
}

// The number at a place; 0 where the word there is no number.
pub fn number_at(words: &[Word], i: usize) -> usize {
    match words.get(i) {
        Some(Word::Number(n)) => small(*n),
        _ => 0,
    }
}

pub fn number_behind(words: &[Word], name: &str) -> usize {
    small(number_after(words, name).unwrap_or(0))
}

// The name at a place; empty where the word there is no name.
pub fn name_at<'a>(words: &[Word<'a>], i: usize) -> &'a str {
    match words.get(i) {
        Some(Word::Name(name)) => name,
        _ => "",
    }
}

fn from<'a, 'w>(words: &'w [Word<'a>], i: usize) -> &'w [Word<'a>] {
    &words[i.min(words.len())..]
}

fn side_at(words: &[Word], i: usize) -> Side {
    if name_at(words, i) == "caller" {
        Side::Caller
    } else {
        Side::Callee
    }
}

fn state_of(word: Option<Word>) -> State {
    let Some(Word::Name(name)) = word else {
        return State::Unlinking;
    };
    match name.as_bytes() {
        b"idle" => State::Idle,
        b"requesting" => State::Requesting,
        b"waiting" => State::Waiting,
        b"linked" => State::Linked,
        _ => State::Unlinking,
    }
}

// The tunnel stands behind the signal that these words begin with, or behind its code; 0 where none is said.
fn tunnel_of(words: &[Word]) -> u8 {
    let near = words.get(..4).unwrap_or(words);
    byte(number_after(near, "tunnel").unwrap_or(0))
}

fn status_of(words: &[Word]) -> Status {
    let code = byte_at(words, 1);
    match name_at(words, 0).as_bytes() {
        b"unknown" => Status::Unknown,
        b"avail" => Status::Avail,
        b"unavail" => Status::Unavail,
        b"none" => Status::None,
        b"dtmf" => Status::Dtmf(code),
        b"open" => Status::Open,
        b"oack" => Status::Oack,
        b"onack" => Status::Onack,
        b"ready" => Status::Ready,
        b"close" => Status::Close,
        b"closeack" => Status::Closeack,
        _ => Status::Special(code),
    }
}

fn signal_of(words: &[Word]) -> Signal {
    match name_at(words, 0).as_bytes() {
        b"upack" => Signal::Upack,
        b"teardown" => Signal::Teardown,
        b"downack" => Signal::Downack,
        _ => Signal::Ordinary(tunnel_of(words), status_of(words)),
    }
}

// `accept`, `busy`, `unobtainable`, `send SIDE SIGNAL`, `teardown SIDE`, `deliver SIDE`.
pub fn command_of(words: &[Word]) -> Command {
    let side = side_at(words, 1);
    let what = from(words, 2);
    match name_at(words, 0).as_bytes() {
        b"accept" => Command::Accept,
        b"busy" => Command::Busy,
        b"unobtainable" => Command::Unobtainable,
        b"send" => Command::Send(side, tunnel_of(what), status_of(what)),
        b"teardown" => Command::Teardown(side),
        _ => Command::Deliver(side),
    }
}

// ---- a record: `caller STATE callee STATE use N, channels N N, to caller N SIGNAL, to callee N SIGNAL`

// As many of one signal as are said after `to` and the side, among the first 190 words. The places past them hold it too: what stands there is not to count.
fn queue_to(words: &[Word], side: &str) -> Queue {
    let to = [Word::Name("to"), Word::Name(side)];
    let mut places = words.windows(2).take(190);
    match places.position(|pair| pair == to.as_slice()) {
        Some(at) => {
            let said = from(words, at.saturating_add(2));
            Queue {
                slots: [signal_of(from(said, 1)); 16],
                count: byte_at(said, 0),
            }
        }
        None => Queue {
            slots: [Signal::Upack; 16],
            count: 0,
        },
    }
}

// The state of an end is the word behind its side, which is said before any queue. Its channels are all in one state, which is a number; that need not be one of a channel's.
fn end_of(words: &[Word], side: &str, channel: u8) -> End {
    End {
        state: state_of(after(words, side)),
        channels: [channel; 256],
    }
}

pub fn use_of(words: &[Word]) -> u16 {
    (number_behind(words, "use") % 65536) as u16
}

// Behind `channels` the caller's number stands, and then the callee's. Every channel is unused where none are said.
pub fn record_of(words: &[Word]) -> Call {
    let channels = behind(words, Word::Name("channels")).unwrap_or(&[]);
    Call {
        caller: end_of(words, "caller", byte_at(channels, 0)),
        callee: end_of(words, "callee", byte_at(channels, 1)),
        to_caller: queue_to(words, "caller"),
        to_callee: queue_to(words, "callee"),
        use_number: use_of(words),
    }
}

// ---- a line

// How many records of a row are other than cleared ones: all, or none.
pub fn filled(words: &[Word]) -> usize {
    if says(words, "full") || says(words, "use") {
        number_at(words, 1) % 1026
    } else {
        0
    }
}

// For the row where the words name it or a record of it, else for the port.
pub fn is_for_row(words: &[Word]) -> bool {
    says(words, "record") || says(words, "row")
}

// A row of more than four records.
pub fn is_long(words: &[Word]) -> bool {
    name_at(words, 0) == "row" && 4 < number_at(words, 1)
}

// A line without the sign and without a command only sets the scene; a long row can't be set by itself.
pub fn sets_only(words: &[Word]) -> bool {
    let asks = words.contains(&Word::Equals) || says(words, "then") || is_long(words);
    let sets = matches!(name_at(words, 0).as_bytes(), b"port" | b"row" | b"record");
    !asks && sets && is_clear(words)
}

// ---- lines that are not clear

// The largest number that may follow a word.
fn limit_after(word: Option<Word>) -> u64 {
    match word {
        Some(Word::Name(name)) => match name.as_bytes() {
            b"row" => 1025,
            b"record" | b"use" => 65535,
            _ => 255,
        },
        _ => 255,
    }
}

// Names of the table alone, and no number above its limit.
pub fn is_clear(words: &[Word]) -> bool {
    let mut before = None;
    for word in words {
        if matches!(word, Word::Number(n) if *n > limit_after(before)) {
            return false;
        }
        before = Some(*word);
    }
    console::known(words, &NAMES)
}

fn is_status(name: &str) -> bool {
    matches!(
        name.as_bytes(),
        b"unknown"
            | b"avail"
            | b"unavail"
            | b"none"
            | b"dtmf"
            | b"special"
            | b"open"
            | b"oack"
            | b"onack"
            | b"ready"
            | b"close"
            | b"closeack"
    )
}

// A send, a teardown and a delivery name their side, and what is sent is a status.
pub fn is_command(words: &[Word]) -> bool {
    let is_sided = matches!(name_at(words, 1).as_bytes(), b"caller" | b"callee");
    match name_at(words, 0).as_bytes() {
        b"send" => is_sided && is_status(name_at(words, 2)),
        b"teardown" | b"deliver" => is_sided,
        b"accept" | b"busy" | b"unobtainable" | b"place" | b"show" => true,
        _ => false,
    }
}
