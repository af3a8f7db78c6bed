// The frame of a trial program. It reads a table, a line a case: `title: what is asked = what is expected`. It answers in words, and they are held against the words that the line expects.
// A line that begins with `-` is a remark.
ghost use Rattle.std.specs.Prelude.{◌≡◌, ◌+◌, ◌%◌, ◌^◌, OnOk, IsTrue, IsFalse};

use crate::words::{Word, before, behind, in_small_letters, words_of};
use std::alloc::{AllocError, Global};
use std::io::Read;
use std::{fmt, io};

// More lines than any script or table has, but that of `desk_trials`, which has a number of its own: a loop must end.
pub const MOST_LINES: u32 = 100_000;

// Whether a line is no case: empty, or a remark.
pub fn is_remark(text: &[u8]) -> bool {
    matches!(text.first(), None | Some(b'-'))
}

// Whether the words after the sign are these.
fn expects(words: &[Word], came: &[Word]) -> bool {
    behind(words, Word::Equals) == Some(came)
}

// How many lines were read, how many of them were cases, and how many of these came as expected.
#[derive(Clone, Copy, PartialEq, Eq, Debug)]
pub struct Tally {
    pub lines: u32,
    pub tried: u32,
    pub right: u32,
}

impl fmt::Display for Tally {
    fn fmt<W: fmt::Write>(&self, f: &mut fmt::Formatter<W>) -> fmt::Result {
        write!(f, "{} of {} as expected", self.right, self.tried)
    }
}

impl Tally {
    pub fn new() -> Self
        ensures { result ≡ record { lines = 0; tried = 0; right = 0 } }
    {
        Tally {
            lines: 0,
            tried: 0,
            right: 0,
        }
    }

    pub fn next_line(&mut self)
        ensures { self.new ≡ record { lines = (self.old.lines + 1) % 2 ^ 32; tried = self.old.tried; right = self.old.right } }
    {
        self.lines = self.lines.wrapping_add(1);
    }

    // A case more. Its line is printed where what came is not right; what came is for the program to print.
    pub fn count(&mut self, rt: &impl Print, text: &[u8], right: bool) -> io::Result<()>
        ensures tried { self.new.tried ≡ (self.old.tried + 1) % 2 ^ 32 }
        ensures right { IsTrue right → self.new.right ≡ (self.old.right + 1) % 2 ^ 32 }
        ensures wrong { IsFalse right → self.new.right ≡ self.old.right }
        ensures lines { self.new.lines ≡ self.old.lines }
    {
        self.tried = self.tried.wrapping_add(1);
        if right {
            self.right = self.right.wrapping_add(1);
            return Ok(());
        }
        print!(rt; "line {} differs: ", self.lines)?;
        rt.write_all(text)?;
        print!(rt; "\n  came:")
    }

    // A case whose answer is words: they are held against what the line expects.
    pub fn judge(
        &mut self,
        rt: &(impl Print + AllocGlobal),
        text: &[u8],
        words: &[Word],
        came: &str,
    ) -> io::Result<()>
        ensures tried { OnOk result (self.new.tried ≡ (self.old.tried + 1) % 2 ^ 32) }
        ensures lines { self.new.lines ≡ self.old.lines }
    {
        let small = in_small_letters(rt.alloc(), came.as_bytes())?;
        let came = words_of(rt.alloc(), &small)?;
        let right = expects(words, &came);
        self.count(rt, text, right)?;
        if !right {
            for word in &came {
                print!(rt; "{word}")?;
            }
            println!(rt)?;
        }
        Ok(())
    }
}

// What a program does with each line of its input. A trait and no closure: its method may always be called, so nothing is asked of a caller.
pub trait EachLine {
    fn take_line(&mut self, text: &[u8]) -> io::Result<()>;
}

// Hands on each line of the input, as many bytes of it as there is room for. No more lines are read than `most`.
pub fn for_each_line<R: Read, L: EachLine>(
    input: &mut R,
    most: u32,
    room: &mut [u8],
    lines: &mut L,
) -> io::Result<()> {
    for _ in 0..most {
        match crate::read_line(input, room)? {
            Some(n) => lines.take_line(&room[..n])?,
            None => break,
        }
    }
    Ok(())
}

// What a trial program says, in words, to what a line asks.
pub trait Answering {
    fn answer(&mut self, alloc: Global, asked: &[Word]) -> Result<String, AllocError>;
}

// The lines of a table, whose cases are tried.
#[derive(Drop)]
struct Cases<'a, R, A> {
    rt: &'a R,
    tally: Tally,
    answering: &'a mut A,
}

impl<R: Print + AllocGlobal, A: Answering> EachLine for Cases<'_, R, A> {
    fn take_line(&mut self, text: &[u8]) -> io::Result<()> {
        self.tally.next_line();
        if is_remark(text) {
            return Ok(());
        }
        let alloc = self.rt.alloc();
        let small = in_small_letters(alloc, text)?;
        let words = words_of(alloc, &small)?;
        let came = self.answering.answer(alloc, before(&words, Word::Equals))?;
        self.tally.judge(self.rt, text, &words, came.as_str())
    }
}

// Tries the cases of the table on standard input: what is asked is answered in words. The tally is for the program to print.
pub fn trials<R: Input + Print + AllocGlobal, A: Answering>(
    rt: &R,
    room: &mut [u8],
    answering: &mut A,
) -> io::Result<Tally> {
    let mut cases = Cases {
        rt,
        tally: Tally::new(),
        answering,
    };
    for_each_line(&mut rt.reader(), MOST_LINES, room, &mut cases)?;
    Ok(cases.tally)
}
