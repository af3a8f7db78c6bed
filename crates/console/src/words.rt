// The words of a line: a name of letters, a number, or a string in quotes, of which each symbol is a word. Everything else between words, commas and brackets say, is for the reader.
ghost use Rattle.std.specs.Prelude.{◌≡◌, ◌<◌, ◌-◌, length, take, drop, IfSome, IfOk};

use std::alloc::{AllocError, Global};
use std::{fmt, str};

// A line has at most so many words; those after them are left out.
const MOST_WORDS: usize = 200;

// A name has at most so many letters; those after them are left out.
const MOST_LETTERS: usize = 12;

// A number with 15 digits: it takes no further one.
const LONG: u64 = 100_000_000_000_000;

// At most so many bytes are taken from a line as a list.
const MOST_BYTES: usize = 40;

#[derive(Clone, Copy, PartialEq, Eq, Debug)]
pub enum Word<'a> {
    // Below 10^15.
    Number(u64),
    // In small letters.
    Name(&'a str),
    // Of a string.
    Symbol(u8),
    // On both sides of a string.
    Quote,
    // Before what is expected.
    Equals,
}

// As the words of an answer are printed, one after the other.
impl fmt::Display for Word<'_> {
    fn fmt<W: fmt::Write>(&self, f: &mut fmt::Formatter<W>) -> fmt::Result {
        match self {
            Word::Number(n) => write!(f, " {n}"),
            Word::Name(name) => write!(f, " {name}"),
            Word::Symbol(c) => f.write_char(*c as char),
            Word::Quote => f.write_char('"'),
            Word::Equals => f.write_char('='),
        }
    }
}

// A text with small letters outside of its strings, so that names can be compared.
pub fn in_small_letters(alloc: Global, text: &[u8]) -> Result<Vec<u8>, AllocError>
    ensures { IfOk result (λ small. length small.items ≡ length text.now) }
{
    let mut small = Vec::from_slice(alloc, text)?;
    let mut in_string = false;
    for c in small.iter_mut() {
        if *c == b'"' {
            in_string = !in_string;
        } else if !in_string {
            c.make_ascii_lowercase();
        }
    }
    Ok(small)
}

fn keep<'a>(words: &mut Vec<Word<'a>>, word: Word<'a>) -> Result<(), AllocError> {
    if words.len() < MOST_WORDS {
        words.push(word)?;
    }
    Ok(())
}

fn number_of(digits: &[u8]) -> u64 {
    digits.iter().fold(0, |n, c| {
        if n < LONG {
            n * 10 + u64::from(c % 16)
        } else {
            n
        }
    })
}

// Letters are ASCII, so they are always a text.
fn name_of(letters: &[u8]) -> &str {
    let cut = letters.get(..MOST_LETTERS).unwrap_or(letters);
    str::from_utf8(cut).unwrap_or("")
}

#[derive(Clone, Copy, PartialEq, Eq)]
enum Kind {
    Digit,
    Letter,
    Sign,
}

fn kind_of(c: u8) -> Kind {
    if c.is_ascii_digit() {
        Kind::Digit
    } else if c.is_ascii_alphabetic() {
        Kind::Letter
    } else {
        Kind::Sign
    }
}

// A colon ends the title, which then does not count.
fn keep_signs(words: &mut Vec<Word>, signs: &[u8]) -> Result<(), AllocError> {
    for c in signs {
        match c {
            b':' => words.clear(),
            b'=' => keep(words, Word::Equals)?,
            _ => {}
        }
    }
    Ok(())
}

fn keep_plain<'a>(words: &mut Vec<Word<'a>>, text: &'a [u8]) -> Result<(), AllocError> {
    for piece in text.chunk_by(|a, b| kind_of(*a) == kind_of(*b)) {
        match piece.first().map(|c| kind_of(*c)) {
            Some(Kind::Digit) => keep(words, Word::Number(number_of(piece)))?,
            Some(Kind::Letter) => keep(words, Word::Name(name_of(piece)))?,
            _ => keep_signs(words, piece)?,
        }
    }
    Ok(())
}

// The words of a text in small letters. Between its first quote and the second a string stands, and so on.
pub fn words_of(alloc: Global, text: &[u8]) -> Result<Vec<Word<'_>>, AllocError> {
    let mut words = Vec::new(alloc);
    for (i, part) in text.split(|c| *c == b'"').enumerate() {
        if i != 0 {
            keep(&mut words, Word::Quote)?;
        }
        if i % 2 == 0 {
            keep_plain(&mut words, part)?;
        } else {
            for c in part {
                keep(&mut words, Word::Symbol(*c))?;
            }
        }
    }
    Ok(words)
}

// ---- what a line asks

// The first place that has this word.
pub fn place_of(words: &[Word], word: Word) -> Option<usize>
    ensures { IfSome result (λ i. i < length words.now) }
{
    words.iter().position(|w| *w == word)
}

pub fn says(words: &[Word], name: &str) -> bool {
    words.contains(&Word::Name(name))
}

// The word after the first one that is this name.
pub fn after<'a>(words: &[Word<'a>], name: &str) -> Option<Word<'a>> {
    let mut from = words.iter().skip_while(|w| **w != Word::Name(name));
    from.nth(1).copied()
}

pub fn number_after(words: &[Word], name: &str) -> Option<u64> {
    match after(words, name) {
        Some(Word::Number(n)) => Some(n),
        _ => None,
    }
}

// Whether every name among these words is one of the names, and no word was left out.
pub fn known(words: &[Word], names: &[&str]) -> bool {
    words.len() < MOST_WORDS
        && words.iter().all(|w| match w {
            Word::Name(name) => names.contains(name),
            _ => true,
        })
}

// The byte that a word of a list stands for: a number above 255 is 255.
fn byte_of(word: Word) -> Option<u8> {
    match word {
        Word::Number(n) => Some(n.min(255) as u8),
        Word::Symbol(c) => Some(c),
        _ => None,
    }
}

// The numbers after the first word that is this, or after the first quote the symbols; at most 40.
pub fn run_after(alloc: Global, words: &[Word], word: Word) -> Result<Vec<u8>, AllocError> {
    let mut bytes = Vec::new(alloc);
    for word in words
        .iter()
        .skip_while(|w| **w != word)
        .skip(1)
        .take(MOST_BYTES)
    {
        match byte_of(*word) {
            Some(c) => bytes.push(c)?,
            None => break,
        }
    }
    Ok(bytes)
}

// The words before this one; all of them where it isn't there.
pub fn before<'a, 'w>(words: &'w [Word<'a>], word: Word) -> &'w [Word<'a>]
    ensures { result.now ≡ take (length result.now) words.now }
{
    match place_of(words, word) {
        Some(at) => &words[..at],
        None => words,
    }
}

// The words after this one.
pub fn behind<'a, 'w>(words: &'w [Word<'a>], word: Word) -> Option<&'w [Word<'a>]>
    ensures part { IfSome result (λ rest. rest.now ≡ drop (length words.now - length rest.now) words.now) }
    ensures fewer { IfSome result (λ rest. length rest.now < length words.now) }
{
    let at = place_of(words, word)?;
    Some(&words[at + 1..])
}
