// A program's bytes taken as symbols, as they come in.
ghost use Rattle.std.specs.Prelude.{◌≡◌, ℕ, List, [], ◌∷◌, ◌-◌, ◌^◌, ◌<◌, IfOk, IfSome, IfNone, OnErr, length, set};
ghost use Rattle.std.specs.Io.KnownBytes.{Consumes, Keeps, IsAtEnd};
ghost use Rattle.navic.specs.Input.{symbol_of, Gathered, GatheredFrom, line_after};

use crate::{Numbers, ReadRefusal};
use std::io;
use std::io::Read;

// '0' and '1' are the symbols 0 and 1; any other byte is a bad symbol.
fn symbol(byte: u8) -> u8
    ensures { result ≡ symbol_of byte }
{
    match byte {
        b'0' => 0,
        b'1' => 1,
        _ => 2,
    }
}

// Puts x at the place n, if there is such a place. (After `if let Some(place) = kept.get_mut(..)` a proof knows no element of the slice.)
fn keep(kept: &mut [u8], n: u64, x: u8)
    ensures { kept.new ≡ set kept.old n x }
{
    let place = n as usize;
    if place < kept.len() {
        kept[place] = x;
    }
}

// Takes one byte, where n symbols came before it; gives the new count, which stops at the largest number that it can hold.
#[tactic(auto, unfolding(crate::specs::Input::symbols_in, crate::specs::Input::kept_after, crate::specs::Input::count_after))]
fn take_byte(kept: &mut [u8], n: u64, byte: u8) -> u64
    ensures { Gathered kept.old n (byte ∷ []) kept.new result }
{
    if byte == b'\n' {
        return n;
    }
    keep(kept, n, symbol(byte));
    n.saturating_add(1)
}

// Keeps those of the bytes' symbols that have a place, where `count` symbols came before them; gives the new count. Slice and
// count stay apart: `gather` and `line` are called by themselves, and a count may pass the slice.
pub fn gather(kept: &mut [u8], count: u64, bytes: &[u8]) -> u64
    ensures { Gathered kept.old count bytes.now kept.new result }
{
    let mut n = count;
    for &byte in bytes {
        n = take_byte(kept, n, byte);
    }
    n
}

// Takes the next piece of an input, where `count` symbols came before it; gives the new count, or nothing at the input's end.
fn take_piece<R: Read>(input: &mut R, kept: &mut [u8], count: u64) -> io::Result<Option<u64>>
    ensures more { IfOk result (λ next. IfSome next (λ n. (bytes : List ℕ) × (0 < length bytes)
        × Consumes (R.remaining input.old) (R.remaining input.new) bytes × Gathered kept.old count bytes kept.new n)) }
    ensures end { IfOk result (λ next. IfNone next (IsAtEnd (R.remaining input.new)
        × Consumes (R.remaining input.old) (R.remaining input.new) [] × (kept.new ≡ kept.old))) }
    ensures err { OnErr result (Keeps (R.remaining input.old) (R.remaining input.new) × (kept.new ≡ kept.old)) }
{
    let mut piece = [0u8; 4096];
    let n = input.read(&mut piece)?;
    if n == 0 {
        return Ok(None);
    }
    Ok(Some(gather(kept, count, &piece[..n])))
}

// Takes a whole input, keeps those of its symbols that have a place, and gives how many it had. The turns are counted, up to a number that no run
// comes to, since nothing says that an input ends. An error is that of a read, and leaves what was kept until then. Either way no byte is lost, and
// a known input of fewer bytes than turns is taken to its end.
pub fn take_all<R: Read>(input: &mut R, kept: &mut [u8]) -> io::Result<u64>
    ensures ok { IfOk result (λ count. GatheredFrom (R.remaining input.old) (R.remaining input.new) kept.old kept.new count) }
    ensures whole { IfOk result (λ count. IfSome (R.remaining input.old) (λ bytes.
        length bytes < 2 ^ 64 - 1 → Gathered kept.old 0 bytes kept.new count)) }
    ensures err { OnErr result ((n : ℕ) × GatheredFrom (R.remaining input.old) (R.remaining input.new) kept.old kept.new n) }
{
    let mut count = 0;
    for _ in 0..u64::MAX {
        let Some(next) = take_piece(input, kept, count)? else {
            return Ok(count);
        };
        count = next;
    }
    Ok(count)
}

// The line of an input of which these symbols were kept and so many were counted.
#[tactic(auto, using(crate::proofs::Gathering::line_other, crate::proofs::Gathering::line_600))]
pub fn line(kept: &[u8; 600], count: u64) -> Numbers
    ensures { result ≡ line_after kept.now count }
{
    if count != 600 {
        return crate::line(Err(ReadRefusal::Length));
    }
    crate::line_of_symbols(kept)
}
