// The month ledger's head, by value: what a month is beside its places. Its calls touch no place; an hour's place is
// worked out here, and nowhere else.
#![tactic(auto)]

ghost use Rattle.std.specs.Prelude.{◌≡◌};
ghost use Rattle.units.specs.Limits.{is_days, is_loss_fee};
ghost use Rattle.units.specs.Refusals.{result_by};
ghost use Rattle.history.specs.Rules.{Call, places_of};
ghost use Rattle.head.specs.Rules.{Fee, month_rules};
ghost use Rattle.head.specs.Inner.{place_of, fresh_head, opened_head, head_fits, head_refusal, headed_of, with_fees};

use units::{Dollars, Refusal, limits};

// A month without its places.
#[derive(Clone, Copy)]
pub struct Head {
    pub days: u8,
    pub closed: bool,
    pub basic: Dollars,
    pub excess: Dollars,
}

// How many places the hours of a month of that many days have.
pub fn places(days: u8) -> usize
    ensures { result ≡ places_of (month_rules days) }
{
    days as usize * limits::HOURS
}

// The place of an hour of a day, counted from the month's first hour; an hour that no day has is past every place.
// Whether the place is one of a month's is tested where it is used.
pub fn place_of(day: u8, hour: u8) -> usize
    ensures { result ≡ place_of day hour }
{
    let at = hour as usize;
    if (1 <= day) & (at < limits::HOURS) {
        return places(day - 1) + at;
    }
    limits::PLACES
}

// The head of a fresh month of 28 to 31 days.
#[tactic(auto, unfolding(crate::specs::Inner::opened_head))]
pub fn open(days: u8) -> Result<Head, Refusal>
    ensures { result ≡ opened_head days }
{
    if !is_days(days) {
        return Err(Refusal::NotInMonth);
    }
    Ok(fresh_head(days))
}

// What a head shows of refusal 22: its days and its fees.
pub fn fits(head: Head) -> bool
    ensures { result ≡ head_fits head }
{
    is_days(head.days) & is_loss_fee(head.basic) & is_loss_fee(head.excess)
}

// Sets the basic fee, which replaces the former; the excess fee stays.
#[tactic(auto, using(crate::proofs::Heads::fee_set_lem))]
pub fn set_basic_fee(head: Head, amount: Dollars) -> Result<Head, Refusal>
    ensures { result ≡ headed_of head (Call.loss_fee Fee.basic amount.0) }
{
    with_fees(head, amount, amount, head.excess)
}

// Sets the excess fee, which replaces the former; the basic fee stays.
#[tactic(auto, using(crate::proofs::Heads::fee_set_lem))]
pub fn set_excess_fee(head: Head, amount: Dollars) -> Result<Head, Refusal>
    ensures { result ≡ headed_of head (Call.loss_fee Fee.excess amount.0) }
{
    with_fees(head, amount, head.basic, amount)
}

// Closes the month.
#[tactic(auto, using(units::proofs::Numbered::let_through), unfolding(crate::specs::Inner::headed_of, history::specs::Board::ruling_on, history::specs::Board::next_on))]
pub fn close(head: Head) -> Result<Head, Refusal>
    ensures { result ≡ headed_of head Call.close }
{
    may_change(head)?;
    Ok(Head {
        closed: true,
        ..head
    })
}

fn is_days(days: u8) -> bool
    ensures { result ≡ is_days days }
{
    (limits::LEAST_DAYS..=limits::MOST_DAYS).contains(&days)
}

fn fresh_head(days: u8) -> Head
    ensures { result ≡ fresh_head days }
{
    Head {
        days,
        closed: false,
        basic: Dollars(0),
        excess: Dollars(0),
    }
}

// A fee is set, and these are then the two: 22, 9, 3 for the one that is set.
#[tactic(auto, using(history::proofs::Orders::own_last, crate::proofs::Heads::fee_refused, units::proofs::Numbered::let_through), unfolding(crate::specs::Inner::with_fees, history::specs::Board::ruling_on))]
fn with_fees(head: Head, set: Dollars, basic: Dollars, excess: Dollars) -> Result<Head, Refusal>
    ensures { result ≡ with_fees head set.0 basic excess }
{
    may_change(head)?;
    if !is_loss_fee(set) {
        return Err(Refusal::BadMoney);
    }
    Ok(Head {
        basic,
        excess,
        ..head
    })
}

// What keeps a head as it is, whatever is to change: 22, 9.
#[tactic(auto, unfolding(history::specs::Board::ruling_on))]
fn may_change(head: Head) -> Result<(), Refusal>
    ensures { result ≡ result_by (head_refusal head Call.close) tt }
{
    if !fits(head) {
        return Err(Refusal::NotReachable);
    }
    if head.closed {
        return Err(Refusal::MonthClosed);
    }
    Ok(())
}

fn is_loss_fee(fee: Dollars) -> bool
    ensures { result ≡ is_loss_fee fee.0 }
{
    whole::within(fee.0, 0, limits::LOSS_FEE)
}
