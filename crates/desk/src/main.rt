// The desk: reads, up to a newline or the end, a line address, a space and a string, and lists the route from that line box under the teaching plan when no box changes anything; or `refused N` alone.
#![tactic(auto)]

use std::io;

// The first 43 bytes of a line decide (proofs/Cut.antt), so what is past 64 is not read. What is written is known whole before any of it is written.
fn main(rt: HostRuntime) -> io::Result<()> {
    let mut line = [0u8; 64];
    let n = console::read_line(&mut rt.reader(), &mut line)?.unwrap_or(0);
    let mut room = [0u8; 4096];
    let len = journey::desk(teaching::teaching_plan(), &line[..n], &mut room);
    rt.write_all(&room[..len])
}
