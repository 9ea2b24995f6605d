// Reads the symbols of one subframe from standard input and prints one line: refusal, corrected count, polarity, subframe, TOWC, message ID.
#![tactic(auto)]

use std::io;

fn main(rt: HostRuntime) -> io::Result<()> {
    let mut kept = [0u8; 600];
    let count = navic::input::take_all(&mut rt.stdin(), &mut kept)?;
    println!(rt; "{}", navic::input::line(&kept, count))
}
