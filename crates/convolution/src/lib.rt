// The encoder.
#![tactic(auto)]

ghost use Rattle.std.specs.Prelude.{◌≡◌, ◌%◌, bit_and, count_ones};
ghost use Rattle.convolution.specs.Code.{coded_form};

// The generators, a 1 for each bit of the register that they use. The present bit is the register's highest.
const G1: u8 = 0o171;

const G2: u8 = 0o133;

// The symbol that a generator makes of the register.
fn symbol(register: u8, generator: u8) -> u8
    ensures { result ≡ count_ones (bit_and register generator) % 2 }
{
    ((register & generator).count_ones() % 2) as u8
}

// The coded form of a word. Every byte counts modulo 2, and six zeros come behind them.
pub fn encode(word: &[u8; 286]) -> [u8; 584]
    ensures { result ≡ coded_form word.now }
{
    let mut coded = [0u8; 584];
    let mut register = 0u8;
    // By index: two places a turn, and the six last turns read past the word.
    for i in 0..292 {
        register = register / 2 + 64 * bits::bit(word, i);
        coded[2 * i] = symbol(register, G1);
        coded[2 * i + 1] = symbol(register, G2);
    }
    coded
}
