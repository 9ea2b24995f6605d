// The nearest word, by Viterbi's algorithm: 32 butterflies a step, metrics of a byte, lowered before they would not fit.
#![tactic(auto)]

ghost use Rattle.std.specs.Prelude.{◌≡◌, List, ℕ, ◌+◌, ◌-◌, ◌*◌, ◌<◌, ◌≤◌, min};
ghost use Rattle.bits.proofs.Fill.{Put};
ghost use Rattle.bits.specs.Lists.{at};
ghost use Rattle.convolution.specs.Code.{price, cost};
ghost use Rattle.convolution.specs.Trellis.{toll, better, choice, metric, pairs, decode};
ghost use Rattle.nearest.specs.Steps.{second_less, Fits, even_toll, Tolls, Halves, Each, mark_at, Marked, Under, Passed};

// 1 where b is less than a, told from the lesser n of the two, which vectors do fastest.
#[tactic(auto, using(crate::proofs::Fly::marked))]
fn mark(n: u8, a: u8, b: u8) -> u8
    requires { n ≡ min a b }
    ensures { result ≡ second_less a b }
{
    u8::from(n != a)
}

// Where a butterfly leads: the metric and the mark of its even state, and of its odd one.
#[derive(Drop)]
struct Four {
    m0: u8,
    k0: u8,
    m1: u8,
    k1: u8,
}

// The butterfly over the metrics a and b, whose even register costs c; the two symbols of a register cost `top` at most.
fn butterfly(a: u8, b: u8, c: u8, top: u8) -> Four
    requires { (c ≤ top) × (a + top ≤ 255) × (b + top ≤ 255) }
    ensures m0_value { (result.m0 ≡ min (a + c) (b + (top - c))) × (result.k0 ≡ second_less (a + c) (b + (top - c))) }
    ensures m1_value { (result.m1 ≡ min (a + (top - c)) (b + c)) × (result.k1 ≡ second_less (a + (top - c)) (b + c)) }
{
    let a0 = a + c;
    let b0 = b + (top - c);
    let a1 = a + (top - c);
    let b1 = b + c;
    let m0 = a0.min(b0);
    let m1 = a1.min(b1);
    let k0 = mark(m0, a0, b0);
    let k1 = mark(m1, a1, b1);
    Four { m0, k0, m1, k1 }
}

// The two halves by turns: even[j] at the place 2 j, odd[j] behind it.
fn weave(even: &[u8; 32], odd: &[u8; 32]) -> [u8; 64]
    ensures { (f : ℕ → ℕ) → Halves f 32 even.now odd.now → Each f result }
{
    let mut woven = [0u8; 64];
    // By index: two places a turn, and of what an adapter of iter_mut writes a proof knows nothing.
    for j in 0..32 {
        woven[2 * j] = even[j];
        woven[2 * j + 1] = odd[j];
    }
    woven
}

// The metrics, each less by d.
fn lower(m: &[u8; 64], d: u8) -> [u8; 64]
    requires { (s : ℕ) → s < 64 → d ≤ at m.now s }
    ensures { (s : ℕ) → s < 64 → at result s ≡ at m.now s - d }
{
    let mut lowered = *m;
    for x in &mut lowered {
        *x -= d;
    }
    lowered
}

// The top price of a symbol. The levels up to it have three bits.
#[derive(Clone, Copy)]
struct TopPrice {
    price: u8,
    ghost small: { price ≤ 7 },
}

impl TopPrice {
    // What a symbol, '0' or '1', costs at a level.
    #[tactic(auto, using(crate::proofs::Fly::symbol_none, crate::proofs::Fly::symbol_one))]
    fn symbol(self, bit: u8, level: u8) -> u8
        ensures { (result ≡ price self.price (bit - 48) level) × (result ≤ self.price) }
    {
        let l = level.min(self.price);
        if bit < b'1' { l } else { self.price - l }
    }

    // What a pair of symbols, each '0' or '1', costs at the levels x and y.
    fn pair(self, first: u8, second: u8, x: u8, y: u8) -> u8
        ensures { result ≡ price self.price (first - 48) x + price self.price (second - 48) y }
    {
        self.symbol(first, x) + self.symbol(second, y)
    }

    // The prices at the levels x and y: for each butterfly that of its even register, whose symbols are written here.
    fn row(self, x: u8, y: u8, table: &mut [u8; 2048])
        requires { (x < 8) × (y < 8) }
        ensures { Put (even_toll self.price (8 * x + y)) (32 * (8 * x + y)) 32 table.old table.new }
    {
        let first = b"01101001011010010110100101101001";
        let second = b"00111100001111001100001111000011";
        let start = 32 * (8 * usize::from(x) + usize::from(y));
        for j in 0..32 {
            table[start + j] = self.pair(first[j], second[j], x, y);
        }
    }

    // The prices at all pairs of levels up to the top one.
    fn table(self) -> [u8; 2048]
        ensures { Tolls self.price (9 * self.price + 1) result }
    {
        let mut all = [0u8; 2048];
        for x in 0..self.price + 1 {
            for y in 0..self.price + 1 {
                self.row(x, y, &mut all);
            }
        }
        all
    }
}

// The top price, and the prices at all pairs of levels up to it.
// The table is lent: held by value it hides from the compiler that the top price is a constant, 22,670 instructions a word in place of 22,079.
#[derive(Clone, Copy)]
struct Prices<'a> {
    top: TopPrice,
    table: &'a [u8; 2048],
    ghost rows: { Tolls top.price (9 * top.price + 1) table.now },
}

impl Prices<'_> {
    // One step at the levels x and y, over all states: 32 butterflies, their even states apart from their odd ones, which vectors do fastest, then woven.
    fn step(&self, m: &[u8; 64], x: u8, y: u8, marks: &mut [u8; 64]) -> [u8; 64]
        requires { Under m.now (255 - 2 * self.now.top.price) }
        ensures metrics { Each (better (at m.now) (toll self.now.top.price (x, y))) result }
        ensures marks { Each (choice (at m.now) (toll self.now.top.price (x, y))) marks.new }
    {
        let p = self.top.price;
        let start = 32 * (8 * usize::from(x.min(p)) + usize::from(y.min(p)));
        let mut m0 = [0u8; 32];
        let mut m1 = [0u8; 32];
        let mut k0 = [0u8; 32];
        let mut k1 = [0u8; 32];
        for j in 0..32 {
            let f = butterfly(m[j], m[j + 32], self.table[start + j], 2 * p);
            m0[j] = f.m0;
            m1[j] = f.m1;
            k0[j] = f.k0;
            k1[j] = f.k1;
        }
        *marks = weave(&k0, &k1);
        weave(&m0, &m1)
    }

    // n steps from the metrics `first`. Each step has a row of marks.
    fn block(
        &self,
        coded: &[u8; 584],
        from: usize,
        n: usize,
        first: &[u8; 64],
        marks: &mut [[u8; 64]; 292],
    ) -> [u8; 64]
        requires steps { (24 * self.now.top.price + 2 * self.now.top.price * n ≤ 255) × (from + n ≤ 292) }
        requires begun { Under first.now (24 * self.now.top.price) × Marked self.now.top.price coded.now from marks.old }
        ensures { Passed self.now.top.price coded.now from (from + n) first.now result marks.new }
    {
        let mut m = *first;
        // By index: two places of the coded form a turn, and the row that a step writes.
        for t in from..from + n {
            m = self.step(&m, coded[2 * t], coded[2 * t + 1], &mut marks[t]);
        }
        m
    }

    // All steps, lowered every `len` of them: the marks of each, and the metric of state 0 after the last.
    fn forward(&self, coded: &[u8; 584], len: usize, marks: &mut [[u8; 64]; 292]) -> u16
        requires { Fits self.now.top.price len }
        ensures { (result ≡ metric self.now.top.price (pairs coded.now 292) 0) × Marked self.now.top.price coded.now 292 marks.new }
    {
        let mut m = [12 * self.top.price; 64];
        m[0] = 0;
        let mut base: u16 = 0;
        for t in (0..292).step_by(len) {
            let d = m[0].saturating_sub(12 * self.top.price);
            base += u16::from(d);
            let n = len.min(292 - t);
            m = self.block(coded, t, n, &lower(&m, d), marks);
        }
        base + u16::from(m[0])
    }
}

// The word that the marks lead back along from state 0.
fn back(marks: &[[u8; 64]; 292], word: &mut [u8; 286])
    requires { (t s : ℕ) → t < 292 → s < 64 → mark_at marks.now t s ≤ 1 }
    ensures { (p : ℕ) (l : List ℕ) → Marked p l 292 marks.now → word.new ≡ decode p 286 l }
{
    let mut s: usize = 0;
    // By index: a mark stands six steps behind its bit, and of what an adapter of iter_mut writes a proof knows nothing.
    for t in (0..286).rev() {
        let k = marks[t + 6][s];
        word[t] = k;
        s = s / 2 + 32 * usize::from(k);
    }
}

// The nearest word at the top price p, and what it costs.
fn find(coded: &[u8; 584], p: u8, len: usize, word: &mut [u8; 286]) -> u16
    requires { Fits p len }
    ensures { (result ≡ cost p coded.now (decode p 286 coded.now)) × (word.new ≡ decode p 286 coded.now) }
{
    let mut marks = [[0u8; 64]; 292];
    let top = TopPrice { price: p };
    let table = top.table();
    let prices = Prices { top, table: &table };
    let total = prices.forward(coded, len, &mut marks);
    back(&marks, word);
    total
}

// The nearest word, and in how many symbols its coded form differs. A byte that is not 0 counts as 1.
pub fn nearest(coded: &[u8; 584], word: &mut [u8; 286]) -> u16
    ensures { (result ≡ cost 1 coded.now (decode 1 286 coded.now)) × (word.new ≡ decode 1 286 coded.now) }
{
    // Blocks of 73 steps: 24 + 2 * 73 is at most 255, and four of them are 292.
    find(coded, 1, 73, word)
}
