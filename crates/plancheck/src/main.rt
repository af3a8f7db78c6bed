// Checks plan files and says of each `sound` with a listing of the plan, or `refused N at P` alone. Without arguments it checks standard input. Each argument is the name of a file, or `-` for
// standard input, and then a line `== NAME` comes before each answer.
// In the gate it checks the teaching plan's file, the empty plan's, the teaching plan's with 2 no longer before 4 in the source order (damaged), and with 7,000 bytes more, which is more than any
// file has (long).
#![tactic(auto)]

mod listing;

use std::io;
use std::rt::{Env, Files};

// One byte more than the longest file has: whatever comes after it is bytes too many as well.
const ROOM: usize = 6437;

fn check_input(rt: &(impl Print + Input)) -> io::Result<()> {
    let mut file = [0; ROOM];
    let n = console::read_full(&mut rt.reader(), &mut file)?;
    listing::report(rt, &file[..n])
}

fn check_file(rt: &(impl Print + Files), name: &[u8]) -> io::Result<()> {
    let mut file = [0; ROOM];
    match console::read_file(rt, name, &mut file) {
        Ok(n) => listing::report(rt, &file[..n]),
        Err(_) => {
            rt.write_all(name)?;
            println!(rt; ": cannot be read")
        }
    }
}

fn check_argument(rt: &(impl Print + Input + Files), name: &[u8]) -> io::Result<()> {
    print!(rt; "== ")?;
    rt.write_all(name)?;
    println!(rt)?;
    if name == b"-".as_slice() {
        check_input(rt)
    } else {
        check_file(rt, name)
    }
}

// The first argument is the program's own name.
fn main(rt: HostRuntime) -> io::Result<()> {
    let count = console::argument_count(&rt);
    if count < 2 {
        check_input(&rt)?;
    }
    for i in 1..count {
        let mut name = [0; 4096];
        if let Some(n) = console::argument(&rt, i, &mut name) {
            check_argument(&rt, &name[..n])?;
        }
    }
    Ok(())
}
