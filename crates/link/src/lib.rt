// The link: from 600 received symbols to the nearest word, and from a word to 600 symbols.
#![tactic(auto)]

ghost use Rattle.std.specs.Prelude.{◌≡◌};
ghost use Rattle.bits.specs.Lists.{Bits};
ghost use Rattle.framing.specs.Frame.{coded_of};
ghost use Rattle.link.specs.Link.{sent_of, nearest_of, receive_of};

use framing::Polarity;

// Why 600 symbols give no word: README's 3, 4 and 10.
#[derive(Clone, Copy, Debug, PartialEq, Eq)]
pub enum LinkRefusal {
    BadSymbol,
    NoSync,
    NoWord,
}

// The word of 286 bits, a byte for each, how many coded symbols were corrected, the polarity, and whether the check agrees. The
// polarity is a bool, since definitions and theorems speak of it as one (`turned_if`).
#[derive(Clone, Copy)]
pub struct Received {
    pub word: [u8; 286],
    pub corrected: u16,
    pub turned_over: bool,
    pub agrees: bool,
}

// The nearest word once the polarity is known. Never inlined, so that the decoder's arrays take stack only where there is something to decode.
#[tactic(auto, using(crate::proofs::Outcomes::none_told, crate::proofs::Outcomes::nearest_told))]
#[inline(never)]
fn nearest_word(symbols: &[u8; 600], turned_over: bool) -> Result<Received, LinkRefusal>
    requires { Bits (coded_of 1 turned_over symbols.now) }
    ensures { result ≡ nearest_of 1 turned_over symbols.now }
{
    let coded = framing::coded(1, symbols, turned_over);
    let mut word = [0u8; 286];
    let corrected = nearest::nearest(&coded, &mut word);
    if 584 < corrected {
        return Err(LinkRefusal::NoWord);
    }
    let agrees = crc24q::agrees(&word);
    Ok(Received {
        word,
        corrected,
        turned_over,
        agrees,
    })
}

// The nearest word of 600 symbols, or why there is none.
#[tactic(auto, using(crate::proofs::Outcomes::symbol_refused, crate::proofs::Outcomes::clean_bits, crate::proofs::Outcomes::upright, crate::proofs::Outcomes::turned_over, crate::proofs::Outcomes::unsynced))]
pub fn receive(symbols: &[u8; 600]) -> Result<Received, LinkRefusal>
    ensures { result ≡ receive_of 1 symbols.now }
{
    if !framing::clean(1, symbols) {
        return Err(LinkRefusal::BadSymbol);
    }
    let polarity = framing::sync(1, symbols, 0).ok_or(LinkRefusal::NoSync)?;
    nearest_word(symbols, polarity == Polarity::TurnedOver)
}

// The 600 upright symbols of a word.
#[tactic(auto, unfolding(crate::specs::Link::sent_of))]
pub fn send(word: &[u8; 286]) -> [u8; 600]
    ensures { result ≡ sent_of word.now }
{
    framing::frame(&convolution::encode(word))
}
