// Reads a recording of symbols from standard input and prints a line for each window that the walk finds: its place and the six numbers that
// navic_read prints for its 600 symbols; and then the walk's closing number.
#![tactic(auto)]

ghost use Rattle.std.specs.Prelude.{◌≡◌, ◌≤◌, IfOk, OnErr, length};
ghost use Rattle.recording.specs.Walk.{found_from, number_in, after_in};
ghost use Rattle.navic_walk.specs.Steps.{step_of, closing_of};

use navic::Numbers;
use recording::{FoundWindow, Handed, LONGEST, WalkRefusal, Walker};
use std::io;

// A window that the walk gives, and the line of its symbols.
#[derive(Clone, Copy)]
struct Step {
    window: FoundWindow,
    line: Numbers,
}

// The walker's next step.
#[tactic(auto, using(crate::proofs::Stepping::step_told, crate::proofs::Stepping::step_refused))]
fn next_step(walker: &mut Walker) -> Result<Step, WalkRefusal>
    ensures told { result ≡ step_of walker.old.recording.now walker.old.place }
    ensures kept { walker.new.recording ≡ walker.old.recording }
    ensures moved { walker.new.place ≡ after_in (found_from walker.old.recording.now walker.old.place) }
{
    let Handed { found, symbols } = walker.next();
    let window = found?;
    let line = navic::line_of_symbols(symbols);
    Ok(Step { window, line })
}

// Prints the windows of a recording in turn; gives the closing number. An error is that of a failed write: it comes only where there is a window
// to print, and no window is printed behind it.
fn print_windows(rt: &impl Print, recording: &[u8]) -> io::Result<u8>
    ensures ok { IfOk result (λ n. n ≡ closing_of (length recording.now)) }
    ensures err { OnErr result (number_in (found_from recording.now 0) ≡ 0) }
{
    let mut walker = Walker::new(recording);
    loop {
        match next_step(&mut walker) {
            Ok(Step { window, line }) => println!(rt; "{} {line}", window.start)?,
            Err(refusal) => return Ok(refusal.number()),
        }
    }
}

// Prints the windows of an input of which these symbols were kept and so many were counted; gives the closing number.
#[tactic(auto, using(crate::proofs::Closing::too_long))]
fn walk(rt: &impl Print, kept: &[u8; LONGEST], count: u64) -> io::Result<u8>
    ensures ok { IfOk result (λ n. n ≡ closing_of count) }
    ensures err { OnErr result (count ≤ 65536) }
{
    if count > LONGEST as u64 {
        return Ok(WalkRefusal::TooLong.number());
    }
    print_windows(rt, &kept[..count as usize])
}

// Prints the windows of the whole input, and the closing number.
fn main(rt: HostRuntime) -> io::Result<()> {
    let mut kept = [0u8; LONGEST];
    let count = navic::input::take_all(&mut rt.stdin(), &mut kept)?;
    let closing = walk(&rt, &kept, count)?;
    println!(rt; "{closing}")
}
