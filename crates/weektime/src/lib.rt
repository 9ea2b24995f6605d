// The three quantities of time: the count of twelve-second steps, the second of the week and the week number. Each has a type of its own with a
// private number, so that a call that takes one of them rejects the other two when the program is built. Each is made by its `new`, which names the
// quantity at the call, where a `From<u32>` would let `n.into()` make any of the three.
#![tactic(auto)]

ghost use Rattle.std.specs.Prelude.{◌≡◌};
ghost use Rattle.weektime.specs.Time.{towc_refused, began_of, count_of};

// The seconds of a step.
const STEP: u32 = 12;

// A count of twelve-second steps (TOWC). It holds any number.
#[derive(Clone, Copy, Debug, PartialEq, Eq, PartialOrd, Ord)]
pub struct Towc(u32);

impl Towc {
    pub fn new(count: u32) -> Self
        ensures { result.0 ≡ count }
    {
        Self(count)
    }

    pub fn count(self) -> u32
        ensures { result ≡ self.0 }
    {
        self.0
    }
}

// A second of the week.
#[derive(Clone, Copy, Debug, PartialEq, Eq, PartialOrd, Ord)]
pub struct SecondOfWeek(u32);

impl SecondOfWeek {
    pub fn new(second: u32) -> Self
        ensures { result.0 ≡ second }
    {
        Self(second)
    }

    pub fn second(self) -> u32
        ensures { result ≡ self.0 }
    {
        self.0
    }
}

// A week number.
#[derive(Clone, Copy, Debug, PartialEq, Eq, PartialOrd, Ord)]
pub struct Week(u32);

impl Week {
    pub fn new(number: u32) -> Self
        ensures { result.0 ≡ number }
    {
        Self(number)
    }

    pub fn number(self) -> u32
        ensures { result ≡ self.0 }
    {
        self.0
    }
}

// Whether a count is outside 1 to 50,400.
#[tactic(auto, using(crate::proofs::Counts::too_low, crate::proofs::Counts::above_one))]
pub fn refused(t: Towc) -> bool
    ensures { result ≡ towc_refused t.0 }
{
    !(1..=50400).contains(&t.0)
}

// The second at which the subframe of a count began.
#[tactic(auto, using(crate::proofs::Counts::at_least, crate::proofs::Counts::at_most), unfolding(crate::specs::Time::began_of))]
pub fn began_at(t: Towc) -> Option<SecondOfWeek>
    ensures { result ≡ began_of t }
{
    if refused(t) {
        return None;
    }
    Some(SecondOfWeek((t.0 - 1) * STEP))
}

// The count of the subframe in which a second lies.
#[tactic(auto, unfolding(crate::specs::Time::count_of))]
pub fn count_in(s: SecondOfWeek) -> Option<Towc>
    ensures { result ≡ count_of s }
{
    let t = Towc(s.0 / STEP + 1);
    if refused(t) {
        return None;
    }
    Some(t)
}
