// What the programs share: lines and arguments read, the words of a line, and the frame of the trial programs.
#![tactic(auto)]

mod trial;
mod words;

ghost use Rattle.std.specs.Io.KnownBytes.{Consumes, IsAtEnd};
ghost use Rattle.std.specs.Prelude.{take, ◌<◌, ◌≡◌, ◌≤◌, ℕ, true, not, length, drop, ◌==◌, slice_index, IfOk, OnErr, IfSome, IsNone};
ghost use Rattle.std.specs.Counts.{IsPrefixLen};
ghost use Rattle.typeset.specs.Sets.{every};

use std::env::FillError;
use std::io::Read;
use std::rt::{Env, Files};
use std::{fs, io, str};
pub use trial::{Answering, EachLine, MOST_LINES, Tally, for_each_line, is_remark, trials};
pub use words::{
    Word, after, before, behind, in_small_letters, known, number_after, place_of, run_after, says,
    words_of,
};

// ---- reading

// Reads up to a newline, the end or the end of the room, and answers how many bytes the line has; nothing where the input was at its end, so that there was no line at all.
// None of the bytes is a newline, and what stood past them stays; that holds too of the bytes before a read that failed. Which bytes they are, its contract does not say.
pub fn read_line<R: Read>(input: &mut R, line: &mut [u8]) -> io::Result<Option<usize>>
    ensures len_in_bounds { IfOk result (λ r. IfSome r (λ n. (n ≤ length line.new) × (every n (λ i. not (slice_index line.new i == 10)) ≡ true) × (drop n line.new ≡ drop n line.old))) }
    ensures counted { IfOk result (λ r. IfSome r (λ n. IsPrefixLen n line.new)) }
    ensures none { IfOk result (λ r. IsNone r → line.new ≡ line.old) }
    ensures err { OnErr result ((n : ℕ) × (n ≤ length line.new) × (every n (λ i. not (slice_index line.new i == 10)) ≡ true) × (drop n line.new ≡ drop n line.old)) }
{
    // By number: the number is what is answered.
    for n in 0usize..line.len() {
        let mut one = [0u8; 1];
        if input.read(&mut one)? == 0 {
            return Ok(if n == 0 { None } else { Some(n) });
        }
        if one[0] == b'\n' {
            return Ok(Some(n));
        }
        line[n] = one[0];
    }
    Ok(Some(line.len()))
}

// Reads until the room is full or the input ends, and answers how many bytes it put at the start of the room. Where the input's bytes are known, those are its next ones, and a room that is not full says that none is left.
// After a failed read, what was read until then stands at the start of the room.
pub fn read_full<R: Read>(input: &mut R, room: &mut [u8]) -> io::Result<usize>
    ensures counted { IfOk result (λ n. IsPrefixLen n room.new) }
    ensures bytes { IfOk result (λ n. Consumes (R.remaining input.old) (R.remaining input.new) (take n room.new)) }
    ensures end { IfOk result (λ n. n < length room.new → IsAtEnd (R.remaining input.new)) }
    ensures err { OnErr result ((n : ℕ) × (n ≤ length room.new) × Consumes (R.remaining input.old) (R.remaining input.new) (take n room.new)) }
{
    let mut done: usize = 0;
    // `while`: a read may give any number of bytes, and `read_exact` would not say how many.
    while done < room.len() {
        let n = input.read(&mut room[done..])?;
        if n == 0 {
            return Ok(done);
        }
        done += n;
    }
    Ok(done)
}

// Reads a file as `read_full` does. A folder can be opened, but an attempt to read it fails.
pub fn read_file(rt: &impl Files, name: &[u8], room: &mut [u8]) -> io::Result<usize>
    ensures { IfOk result (λ n. IsPrefixLen n room.new) }
{
    match str::from_utf8(name) {
        Ok(path) => read_full(&mut fs::open(rt, path)?, room),
        Err(_) => Err(io::Error::from(io::ErrorKind::InvalidInput)),
    }
}

// ---- arguments

// Puts the argument at a place at the start of the room and answers its length, 0 where the room is too short; nothing past the last argument. The first one is the program's own name.
// (`env::args` fails at an argument that is no text, and a file's name may be none.)
pub fn argument(rt: &impl Env, i: usize, room: &mut [u8]) -> Option<usize>
    ensures { IfSome result (λ n. IsPrefixLen n room.new) }
{
    match rt.arg(i, room) {
        Ok(n) => Some(n),
        Err(FillError::TooLong) => Some(within(0, room)),
        Err(FillError::NotPresent) => None,
    }
}

// How many arguments there are, the program's own name among them.
pub fn argument_count(rt: &impl Env) -> usize {
    (0..usize::MAX)
        .find(|i| argument(rt, *i, &mut []).is_none())
        .unwrap_or(usize::MAX)
}

// As many of the bytes as there are, so that `&bytes[..n]` can be had.
pub fn within(n: usize, bytes: &[u8]) -> usize
    ensures { IsPrefixLen result bytes.now }
{
    n.min(bytes.len())
}
