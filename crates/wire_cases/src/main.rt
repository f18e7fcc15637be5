//! Reads bytes from standard input, in hexadecimal, and prints which messages they are.
//!
//! A line `message BYTES` is one whole message: the answer is the message in short and its bytes written again, or
//! its first fault. A line `stream BYTES | BYTES ..` is a stream that comes in these pieces, and `singly BYTES` one
//! that comes byte by byte. For each message, and for the fault, a line tells how many bytes had come by then. The last
//! line tells how many are held. Any other line is printed as it is.
//!
//! Layer: tests; nothing calls it.
#![tactic(auto)]

mod cases;
mod short;

use cases::answer;
use std::io;

fn main(rt: HostRuntime) -> io::Result<()> {
    let alloc = rt.alloc();
    let text = io::read_to_string(alloc, rt.stdin())?;
    for line in text.lines() {
        println!(rt; "{}", answer(alloc, line)?)?;
    }
    Ok(())
}
