// The scales of a layout's rows, and a raw number times one of them.
ghost use Rattle.std.specs.Prelude.{◌≡◌, false, ℕ, ◌<◌, length, get_or};
ghost use Rattle.std.specs.Float.{fin};
ghost use Rattle.std.specs.Float.Ieee.{minus};
ghost use Rattle.fields.specs.Table.{rows_of};
ghost use Rattle.fields.specs.Patterns.{no_row};
ghost use Rattle.ephemeris.specs.Scales.{Near, Scaled};

use fields::{Layout, Row};

// 2 ^ (k - 1023), by its bit pattern: k in the exponent's field, k · 2 ^ 52.
#[tactic(auto, using(crate::proofs::Biased::word_number, crate::proofs::Biased::word_is))]
fn power(k: u64) -> f64
    requires { (0 < k) × (k < 2047) }
    ensures { result ≡ fin false 1 (minus k 1023) }
{
    f64::from_bits(k << 52)
}

// 2 ^ e.
fn two_to(e: i32) -> f64
    requires { Near e }
    ensures { result ≡ fin false 1 e }
{
    power((e + 1023) as u64)
}

// A layout's rows; the scale of each is near enough to 1 that a product with it doesn't round.
#[derive(Drop)]
pub(crate) struct Scales {
    rows: &'static [Row],
    ghost near: { (k : ℕ) → k < length rows.now → Near (get_or rows.now k no_row).3 },
}

impl Scales {
    pub(crate) fn of(layout: Layout) -> Self
        ensures { result.rows.now ≡ rows_of layout }
    {
        Self {
            rows: fields::table(layout),
        }
    }

    // A raw number times the scale of row k.
    pub(crate) fn scaled<T: Into<f64>>(&self, k: usize, raw: T) -> f64
        requires { k < length self.now.rows.now }
        ensures { Scaled (T.converts raw) (get_or self.now.rows.now k no_row).3 result }
    {
        raw.into() * two_to(self.rows[k].3)
    }
}
