// Numbers handed in: what the writer refuses of them, and what they say.
ghost use Rattle.std.specs.Prelude.{◌≡◌, ◌≢◌, ◌↔◌, ◌==◌, IsNone, IfSome, length};
ghost use Rattle.std.specs.Int.{w64};
ghost use Rattle.std.specs.List.{list_all};
ghost use Rattle.std.proofs.Common.{to_z};
ghost use Rattle.demands.specs.Family.{symbols_of, write_into};
ghost use Rattle.fields.specs.Patterns.{unless_0};
ghost use Rattle.message.specs.Numbers.{nat};
ghost use Rattle.navic_c.specs.Numbers.{layout_in, id_above, untimely, fault_from, body_from, numbered};
ghost use Rattle.navic_c.specs.Calls.{int64, Words, fitting, record_of, record_in, written_as, judged_as, judged_of, written_of};

use crate::Refusal;
use fields::Layout;
use message::{Entry, Record};
use navic::WriteRefusal;
use weektime::Towc;

// The 42 numbers of a record.
#[derive(Clone, Copy)]
pub struct Given {
    numbers: [u64; 42],
    ghost words: { Words numbers },
}

// The number, and 0 for one below 0.
fn natural(n: u64) -> u64
    ensures { result ≡ nat (to_z w64 n) }
{
    u64::try_from(n.cast_signed()).unwrap_or(0)
}

// Whether all of them are 0.
fn all_zero(numbers: &[u64]) -> bool
    ensures { result ≡ list_all (λ n. n == 0) numbers.now }
{
    numbers.iter().all(|n| *n == 0)
}

impl Given {
    // None where there are not 42.
    pub fn of(numbers: &[u64]) -> Option<Given>
        ensures count { IsNone result ↔ (length numbers.now ≢ 42) }
        ensures same { IfSome result (λ g. g.numbers ≡ numbers.now) }
    {
        let numbers = *numbers.as_array()?;
        Some(Given { numbers })
    }

    // The layout of the numbers, by their IDs.
    #[tactic(auto, using(crate::proofs::Words::unsigned_at), unfolding(crate::specs::Numbers::layout_in))]
    fn layout(&self) -> Layout
        ensures { result ≡ layout_in (int64 self.now.numbers) }
    {
        message::layout_by(natural(self.numbers[4]), natural(self.numbers[6]))
    }

    // Whether a message's ID is above 63.
    #[tactic(auto, using(crate::proofs::Words::unsigned_at), unfolding(crate::specs::Numbers::id_above))]
    fn id_above(&self) -> bool
        ensures { result ≡ id_above (int64 self.now.numbers) }
    {
        1 < natural(self.numbers[4]) && 63 < natural(self.numbers[6])
    }

    // Whether TOWC is refused.
    #[tactic(auto, using(crate::proofs::Words::unsigned_at, weektime::proofs::Counts::too_high), unfolding(crate::specs::Numbers::untimely))]
    fn untimely(&self) -> bool
        ensures { result ≡ untimely (int64 self.now.numbers) }
    {
        match u32::try_from(natural(self.numbers[1])) {
            Ok(count) => weektime::refused(Towc::new(count)),
            Err(_) => true,
        }
    }

    // The first bit of the lowest field that does not hold its number; `UNUSED` if only a number behind the layout's is not 0.
    #[tactic(auto, using(fields::proofs::Rules::few))]
    fn fault(&self) -> Option<u16>
        ensures { result ≡ unless_0 (fault_from (int64 self.now.numbers)) }
    {
        let layout = self.layout();
        match fields::fault(layout, self.numbers) {
            Some(bit) => Some(bit as u16),
            None if all_zero(&self.numbers[fields::count(layout)..]) => None,
            None => Some(message::UNUSED),
        }
    }

    // What the writer refuses of them: 9, 7, 8. The order is that of crate navic's `check`, whose questions are put to a record; the law of the order
    // is one for both (`Family` of crate demands).
    #[tactic(auto, using(crate::proofs::Judged::refuses_9, crate::proofs::Judged::refuses_7, crate::proofs::Judged::refuses_8, crate::proofs::Judged::refuses_none))]
    fn judge(&self) -> Result<(), WriteRefusal>
        ensures { judged_as result ≡ judged_of (int64 self.now.numbers) }
    {
        if self.id_above() {
            return Err(WriteRefusal::Id);
        }
        if self.untimely() {
            return Err(WriteRefusal::Time);
        }
        if let Some(first_bit) = self.fault() {
            return Err(WriteRefusal::Field(first_bit));
        }
        Ok(())
    }

    // The body that holds them.
    #[tactic(auto, using(crate::proofs::Words::packed_words), unfolding(crate::specs::Numbers::body_from))]
    pub fn body(&self) -> [u8; 262]
        ensures { result ≡ body_from (int64 self.now.numbers) }
    {
        fields::write(self.layout(), self.numbers)
    }

    // Whether each is within its field.
    #[tactic(auto, using(crate::proofs::Judged::unfit, crate::proofs::Judged::fit))]
    pub fn fits(&self) -> bool
        ensures { result ≡ fitting (int64 self.now.numbers) }
    {
        fields::fault(self.layout(), self.numbers).is_none()
    }

    // The record that they say.
    #[tactic(auto, unfolding(crate::specs::Calls::record_of))]
    pub fn record(&self) -> Record
        ensures { result ≡ record_of (int64 self.now.numbers) }
    {
        Entry::parse(&self.body()).record
    }

    // Their 600 upright symbols.
    #[tactic(auto, unfolding(demands::specs::Family::symbols_of))]
    fn symbols(&self) -> [u8; 600]
        ensures { result ≡ symbols_of numbered (int64 self.now.numbers) }
    {
        link::send(&crc24q::with_check(&self.body()))
    }
}

// The record of numbers; None unless there are 42, each within its field.
#[tactic(auto, using(crate::proofs::Judged::not_42, crate::proofs::Judged::unfitted, crate::proofs::Judged::fitted))]
pub fn record(numbers: &[u64]) -> Option<Record>
    ensures { result ≡ record_in (int64 numbers.now) }
{
    let given = Given::of(numbers)?;
    if !given.fits() {
        return None;
    }
    Some(given.record())
}

// Writes a record as 600 upright symbols. What is lent beyond them stays, and all of it beside a refusal.
#[tactic(auto, using(crate::proofs::Answered::too_little, crate::proofs::Answered::too_little_after, crate::proofs::Answered::other_count, crate::proofs::Answered::other_count_after, crate::proofs::Answered::no_42, crate::proofs::Answered::symbols_600, crate::proofs::Answered::answers, crate::proofs::Answered::put))]
pub fn write(numbers: &[u64], symbols: &mut [u8]) -> Result<(), Refusal>
    ensures value { written_as result ≡ written_of (int64 numbers.now) (length symbols.old) }
    ensures symbols_after { symbols.new ≡ write_into numbered (int64 numbers.now) symbols.old }
{
    if symbols.len() < 600 {
        return Err(Refusal::Record(WriteRefusal::Room));
    }
    let given = Given::of(numbers).ok_or(Refusal::Count)?;
    given.judge()?;
    symbols[..600].copy_from_slice(&given.symbols());
    Ok(())
}
