// What stands beside a record and its case doesn't use.
ghost use Rattle.std.specs.Prelude.{◌≡◌, ◌%◌, eqb, length};
ghost use Rattle.bits.specs.Lists.{at, both};
ghost use Rattle.message.specs.Numbers.{giveis, givds};
ghost use Rattle.message.specs.Records.{used_by, unused_zero, zeros?};

use crate::{Beside, NO_PAIR};
use fields::Layout;

fn no_bits(beside: &Beside) -> bool
    ensures { result ≡ zeros? 28 beside.now.bits }
{
    beside.bits == [0; 28]
}

fn no_pairs(beside: &Beside) -> bool
    ensures { result ≡ both (zeros? 15 (giveis beside.now)) (zeros? 15 (givds beside.now)) }
{
    beside.pairs == [NO_PAIR; 15]
}

// Whether the low four bits of the last byte are 0.
fn low_zero(beside: &Beside) -> bool
    ensures { result ≡ both (eqb (length beside.now.bits) 28) (eqb (at beside.now.bits 27 % 16) 0) }
{
    beside.bits[27] % 16 == 0
}

// Whether what a record of this layout doesn't use beside it is 0.
pub fn unused_zero(layout: Layout, beside: &Beside) -> bool
    ensures { result ≡ unused_zero (used_by layout) beside.now }
{
    match layout {
        Layout::IonoGrid => no_bits(beside),
        Layout::Data => low_zero(beside) && no_pairs(beside),
        Layout::Subframe1
        | Layout::Subframe2
        | Layout::Almanac
        | Layout::TimeOffsets
        | Layout::EarthIono => no_bits(beside) && no_pairs(beside),
    }
}
