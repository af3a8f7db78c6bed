// subscribers PLANFILE TYPE ..: for each pair of arguments, who is touched if the type is withdrawn: the addresses that subscribe to it in each region, and how many.
// In the gate it is asked of the teaching plan's file, of the empty plan's and of damaged ones, and with arguments that are wrong.
#![tactic(auto)]

ghost use Rattle.std.specs.Prelude.{◌+◌, ◌<◌, ◌^◌};

use console::Word;
use plan::{Plan, Region};
use std::alloc::{AllocError, Global};
use std::io;
use std::rt::{Env, Files};

// How many addresses, then each of them.
fn print_list(rt: &impl Print, addresses: &[u32]) -> io::Result<()> {
    print!(rt; "{}", addresses.len())?;
    for address in addresses {
        print!(rt; " {address}")?;
    }
    println!(rt)
}

fn print_both(rt: &impl Print, plan: Plan, of_type: u32) -> io::Result<()> {
    let mut index = [[0; 257]; 64];
    match index::build(plan, &mut index) {
        Err(r) => println!(rt; "{r}"),
        Ok(()) => {
            print!(rt; "source ")?;
            print_list(rt, index::look(&index, Region::Source, of_type))?;
            print!(rt; "target ")?;
            print_list(rt, index::look(&index, Region::Target, of_type))
        }
    }
}

fn answer(rt: &impl Print, file: &[u8], of_type: u32) -> io::Result<()> {
    match planread::read(file) {
        Err(r) => println!(rt; "{r}"),
        Ok(plan) => print_both(rt, plan, of_type),
    }
}

// One byte more than the longest file has: whatever comes after it is bytes too many as well.
fn answer_file(rt: &(impl Print + Files), name: &[u8], of_type: u32) -> io::Result<()> {
    let mut file = [0; 6437];
    match console::read_file(rt, name, &mut file) {
        Ok(n) => answer(rt, &file[..n], of_type),
        Err(_) => println!(rt; "cannot be read"),
    }
}

// The number that some bytes are, if they are one and it is a type.
fn type_in(alloc: Global, text: &[u8]) -> Result<Option<u32>, AllocError> {
    let words = console::words_of(alloc, text)?;
    Ok(match &words[..] {
        [Word::Number(n)] if *n < 32 => Some(*n as u32),
        _ => None,
    })
}

fn answer_pair(
    rt: &(impl Print + Files + AllocGlobal),
    name: &[u8],
    text: &[u8],
) -> io::Result<()> {
    print!(rt; "== ")?;
    rt.write_all(name)?;
    print!(rt; " ")?;
    rt.write_all(text)?;
    println!(rt)?;
    match type_in(rt.alloc(), text)? {
        Some(of_type) => answer_file(rt, name, of_type),
        None => println!(rt; "a type is a number from 0 to 31"),
    }
}

fn answer_arguments(rt: &(impl Print + Files + Env + AllocGlobal), i: usize) -> io::Result<()>
    requires { i + 1 < 2 ^ 64 }
{
    let mut name = [0; 4096];
    let mut text = [0; 4096];
    let n = console::argument(rt, i, &mut name).unwrap_or(0);
    let m = console::argument(rt, i + 1, &mut text).unwrap_or(0);
    answer_pair(rt, &name[..n], &text[..m])
}

// The first argument is the program's own name.
fn main(rt: HostRuntime) -> io::Result<()> {
    let count = console::argument_count(&rt);
    if count < 3 || count % 2 == 0 {
        println!(rt; "usage: subscribers PLANFILE TYPE ..")?;
    }
    for i in (1..count.saturating_sub(1)).step_by(2) {
        answer_arguments(&rt, i)?;
    }
    Ok(())
}
