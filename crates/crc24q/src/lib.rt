// The check CRC-24Q: the remainder of a body's bits, and the word of a body with its check behind it. A byte counts as a bit by its lowest one.
#![tactic(auto)]

ghost use Rattle.std.specs.Prelude.{◌≡◌, ◌++◌, ◌*◌, ◌%◌, ◌^◌, ◌<◌};
ghost use Rattle.bits.specs.Numbers.{bits_of};
ghost use Rattle.crc24q.specs.Check.{◌⊕◌, reduce, check_of, agrees_of, with_check};

use std::array;

// The generator, its highest term worth 2 ^ 24.
const GENERATOR: u32 = 0x186_4CFB;

// The register takes a bit in at its high end.
fn push(r: u32, b: u8) -> u32
    requires { r < 2 ^ 24 }
    ensures { result ≡ reduce (r * 2 ⊕ b % 2 * 2 ^ 24) }
{
    let t = (r * 2) ^ (u32::from(b % 2) * 0x100_0000);
    if t < 0x100_0000 { t } else { GENERATOR ^ t }
}

// The check of the bits.
#[tactic(auto, using(crate::proofs::Register::check_none, crate::proofs::Register::check_next, crate::proofs::Remainder::check_lt))]
pub fn check(bits: &[u8]) -> u32
    ensures { result ≡ check_of bits.now }
{
    let mut r: u32 = 0;
    for &b in bits {
        r = push(r, b);
    }
    r
}

// Whether the last 24 bits of a word are the check of the others: then, and only then, the check of the whole word is 0.
#[tactic(auto, using(crate::proofs::Word::agrees_whole))]
pub fn agrees(word: &[u8; 286]) -> bool
    ensures { result ≡ agrees_of word.now }
{
    check(word) == 0
}

// The body and the 24 bits of c behind it, highest first.
fn joined(body: &[u8; 262], c: u32) -> [u8; 286]
    ensures { result ≡ body.now ++ bits_of 24 c }
{
    let bits: [u8; 24] = array::from_fn(|k| ((c >> (23 - k)) % 2) as u8);
    let mut word = [0u8; 286];
    word[..262].copy_from_slice(body);
    word[262..].copy_from_slice(&bits);
    word
}

// The word of a body: its bytes as they are, and the 24 bits of its check.
#[tactic(auto, unfolding(crate::specs::Check::with_check))]
pub fn with_check(body: &[u8; 262]) -> [u8; 286]
    ensures { result ≡ with_check body.now }
{
    let c = check(body);
    joined(body, c)
}
