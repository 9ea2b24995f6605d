// A subframe's 600 symbols: the sync, turning over, and the interleaver, a grid of eight rows of seventy-three symbols.
// Levels go from 0 to `top`; at `top` 1 they are symbols. It is a number beside the levels and no struct with them, as the definitions have it.
#![tactic(auto)]

ghost use Rattle.std.specs.Prelude.{◌≡◌, ◌++◌, ◌-◌, drop};
ghost use Rattle.bits.specs.Lists.{pick, part, at_most};
ghost use Rattle.framing.specs.Sync.{eb90, bit_at, disagreeing, judged, sync_of};
ghost use Rattle.framing.specs.Grid.{rowwise, columnwise, Filled, by_rows, by_columns};
ghost use Rattle.framing.specs.Frame.{turned_if, coded_of, framed};

use std::array;

// Which way round a subframe's symbols arrive.
#[derive(Clone, Copy, Debug, PartialEq, Eq)]
pub enum Polarity {
    Upright,
    TurnedOver,
}

// EB90 hex, most significant bit first.
const EB90: [u8; 16] = [1, 1, 1, 0, 1, 0, 1, 1, 1, 0, 0, 1, 0, 0, 0, 0];

// A level read as a bit.
fn bit_at(top: u8, level: u8) -> u8
    ensures { result ≡ bit_at top level }
{
    u8::from(level > top / 2)
}

// What the number of disagreeing symbols says.
#[tactic(auto, using(crate::proofs::Agreement::judged_upright, crate::proofs::Agreement::judged_turned, crate::proofs::Agreement::judged_missing))]
fn judge(disagreeing: u8) -> Option<Polarity>
    ensures { result ≡ judged disagreeing }
{
    if disagreeing <= 2 {
        Some(Polarity::Upright)
    } else if disagreeing >= 14 {
        Some(Polarity::TurnedOver)
    } else {
        None
    }
}

// How many symbols, read as bits, differ from EB90's.
fn disagreeing(top: u8, window: &[u8; 16]) -> u8
    ensures { result ≡ disagreeing top window.now }
{
    EB90.iter()
        .zip(window)
        .map(|(bit, level)| u8::from(bit_at(top, *level) != *bit))
        .sum()
}

// What the sixteen symbols from a place on say; there is no sync where fewer are left.
pub fn sync(top: u8, symbols: &[u8], at: usize) -> Option<Polarity>
    ensures { result ≡ sync_of top (part symbols.now at 16) }
{
    let window = symbols.get(at..)?.first_chunk::<16>()?;
    if !clean(top, window) {
        return None;
    }
    judge(disagreeing(top, window))
}

// Whether no symbol is above `top`, by the highest of them: unlike `all`, a `fold` has no way out, so that it goes over many at once.
pub fn clean(top: u8, symbols: &[u8]) -> bool
    ensures { result ≡ at_most top symbols.now }
{
    let highest = symbols
        .iter()
        .fold(0, |highest: u8, level| highest.max(*level));
    highest <= top
}

// A level, turned over where asked; one above `top` gives 0.
fn turned(top: u8, turned_over: bool, level: u8) -> u8
    ensures { result ≡ pick turned_over (top - level) level }
{
    if turned_over {
        top.saturating_sub(level)
    } else {
        level
    }
}

// The grid is filled in two ways and emptied in two. Each adds its own, turning over or the sync: with the place as a closure the four get no shorter.

// The reader fills the grid row by row, as the symbols after the sync arrive.
fn fill_rows(top: u8, symbols: &[u8; 600], turned_over: bool) -> [[u8; 73]; 8]
    ensures { Filled rowwise (drop 16 (turned_if turned_over top symbols.now)) result 584 }
{
    let mut grid = [[0u8; 73]; 8];
    for (i, &level) in symbols[16..].iter().enumerate() {
        grid[i / 73][i % 73] = turned(top, turned_over, level);
    }
    grid
}

// The reader empties the grid by columns.
fn by_columns(grid: [[u8; 73]; 8]) -> [u8; 584]
    ensures { result ≡ by_columns grid }
{
    array::from_fn(|i| grid[i % 8][i / 8])
}

// The 584 coded symbols of a subframe, upright, in the order in which they were coded.
pub fn coded(top: u8, symbols: &[u8; 600], turned_over: bool) -> [u8; 584]
    ensures { result ≡ coded_of top turned_over symbols.now }
{
    by_columns(fill_rows(top, symbols, turned_over))
}

// The writer fills the grid by columns.
fn fill_columns(coded: &[u8; 584]) -> [[u8; 73]; 8]
    ensures { Filled columnwise coded.now result 584 }
{
    let mut grid = [[0u8; 73]; 8];
    for (i, &symbol) in coded.iter().enumerate() {
        grid[i % 8][i / 8] = symbol;
    }
    grid
}

// The writer empties the grid by rows, after the sync.
fn by_rows(grid: [[u8; 73]; 8]) -> [u8; 600]
    ensures { result ≡ eb90 ++ by_rows grid }
{
    let symbols: [u8; 584] = array::from_fn(|i| grid[i / 73][i % 73]);
    let mut out = [0u8; 600];
    out[..16].copy_from_slice(&EB90);
    out[16..].copy_from_slice(&symbols);
    out
}

// The 600 upright symbols of 584 coded ones.
pub fn frame(coded: &[u8; 584]) -> [u8; 600]
    ensures { result ≡ framed coded.now }
{
    by_rows(fill_columns(coded))
}
