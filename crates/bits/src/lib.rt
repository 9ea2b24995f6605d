// Bits and numbers, as the other crates use them. Here a byte counts as a bit by its lowest one, so that each call takes any bytes.
#![tactic(auto)]

ghost use Rattle.std.specs.Prelude.{◌≡◌, ◌%◌};
ghost use Rattle.bits.specs.Lists.{at};

// The lowest bit of a byte.
pub fn lowest(x: u8) -> u8
    ensures { result ≡ x % 2 }
{
    x % 2
}

// The bit at a place, and 0 past the end.
pub fn bit(word: &[u8], i: usize) -> u8
    ensures { result ≡ at word.now i % 2 }
{
    word.get(i).map_or(0, |b| lowest(*b))
}
