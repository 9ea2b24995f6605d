// The numbers of a body as each sort of field. A number is asked for by its place, one call a field: an element of an array costs the check three
// statements, a call one.
ghost use Rattle.std.specs.Prelude.{◌≡◌, eqb};
ghost use Rattle.bits.specs.Lists.{at};
ghost use Rattle.message.specs.Numbers.{slot_of};
ghost use Rattle.message.specs.Raw.{plain_at, signed_at, head_from};

use crate::{Head, Slot};
use weektime::{Towc, Week};

// The numbers in the table's order, as patterns.
#[derive(Clone, Copy)]
pub struct View<'a>(pub &'a [u64; 42]);

impl View<'_> {
    // The whole number, and 0 past the end; the others are over it.
    pub fn wide(&self, k: usize) -> u64
        ensures { result ≡ at self.now.0.now k }
    {
        let numbers = self.0;
        numbers.get(k).copied().unwrap_or(0)
    }

    pub fn plain(&self, k: usize) -> u32
        ensures { result ≡ plain_at self.now.0.now k }
    {
        (self.wide(k) % (1 << 32)) as u32
    }

    pub fn signed(&self, k: usize) -> i32
        ensures { result ≡ signed_at self.now.0.now k }
    {
        fields::signed(self.wide(k))
    }

    pub fn flag(&self, k: usize) -> bool
        ensures { result ≡ eqb (plain_at self.now.0.now k) 1 }
    {
        self.plain(k) == 1
    }

    pub fn week(&self, k: usize) -> Week
        ensures { result.0 ≡ plain_at self.now.0.now k }
    {
        Week::new(self.plain(k))
    }

    pub fn slot(&self) -> Slot
        ensures { result ≡ slot_of (plain_at self.now.0.now 4) }
    {
        if self.plain(4) == 3 {
            Slot::Subframe4
        } else {
            Slot::Subframe3
        }
    }

    pub fn head(&self) -> Head
        ensures { result ≡ head_from self.now.0.now }
    {
        Head {
            tlm: self.plain(0),
            towc: Towc::new(self.plain(1)),
            alert: self.flag(2),
            auto_nav: self.flag(3),
            spare: self.plain(5),
        }
    }
}
