// The month ledger: its hour places, two loss fees, and a mark that stops every change. It knows nothing of readings.
//
// The calls on a `Month` by value refuse with 22 a ledger that no run of calls hands back, and go through the calls in
// place (crate board) or on the head (crate head).
#![tactic(auto)]

ghost use Rattle.std.specs.Prelude.{◌+◌, ◌≤◌, ◌≡◌, false, pos, length, get_or, take, drop, unwrap_or};
ghost use Rattle.whole.specs.Folds.{count_to};
ghost use Rattle.whole.specs.Inner.{summed};
ghost use Rattle.units.specs.Limits.{hours_of_day, month_places};
ghost use Rattle.units.specs.Units.{dollars};
ghost use Rattle.history.specs.Rules.{Call};
ghost use Rattle.history.specs.Board.{well_formed};
ghost use Rattle.head.specs.Rules.{Fee, amount_item};
ghost use Rattle.month.specs.Month.{rules_of, board_of, open_of, month_answer, read_out, hour_told, day_told, fee_told, total_told, standing_told};
ghost use Rattle.month.specs.Inner.{month_head, month_in, head_booked};

use head::Head;
use units::{Dollars, Refusal, limits};

#[derive(Clone, Copy)]
pub struct Month {
    pub days: u8,
    pub closed: bool,
    pub basic: Dollars,
    pub excess: Dollars,
    pub marks: [bool; limits::PLACES],
    pub amounts: [i64; limits::PLACES],
}

impl Month {
    pub const PLACES: usize = limits::PLACES;

    pub const LEAST: i64 = -limits::AMOUNT;

    pub const MOST: i64 = limits::AMOUNT;

    pub const FEE: i64 = limits::LOSS_FEE;

    // A fresh month of 28 to 31 days.
    pub fn open(days: u8) -> Result<Month, Refusal>
        ensures { result ≡ open_of days }
    {
        let head = head::open(days)?;
        Ok(month_in(head, [false; limits::PLACES], [0; limits::PLACES]))
    }

    // Puts an amount at an hour that is empty.
    pub fn post(self, day: u8, hour: u8, amount: Dollars) -> Result<Month, Refusal>
        ensures { result ≡ month_answer self (Call.post day hour (amount_item amount.0)) }
    {
        if !self.well_formed() {
            return Err(Refusal::NotReachable);
        }
        let free = head::place_of(day, hour);
        let mut month = self;
        board::post_in(
            self.head(),
            &mut month.marks,
            &mut month.amounts,
            free,
            amount,
        )?;
        Ok(month)
    }

    // Puts another amount at an hour that stands.
    pub fn replace(self, day: u8, hour: u8, amount: Dollars) -> Result<Month, Refusal>
        ensures { result ≡ month_answer self (Call.replace day hour (amount_item amount.0)) }
    {
        if !self.well_formed() {
            return Err(Refusal::NotReachable);
        }
        let held = head::place_of(day, hour);
        let mut month = self;
        board::replace_in(
            self.head(),
            &mut month.marks,
            &mut month.amounts,
            held,
            amount,
        )?;
        Ok(month)
    }

    // Empties an hour that stands.
    pub fn withdraw(self, day: u8, hour: u8) -> Result<Month, Refusal>
        ensures { result ≡ month_answer self (Call.withdraw day hour) }
    {
        if !self.well_formed() {
            return Err(Refusal::NotReachable);
        }
        let freed = head::place_of(day, hour);
        let mut month = self;
        board::withdraw_in(self.head(), &mut month.marks, &mut month.amounts, freed)?;
        Ok(month)
    }

    // Sets the basic loss fee, which replaces the former; the excess fee stays.
    pub fn set_basic_fee(self, amount: Dollars) -> Result<Month, Refusal>
        ensures { result ≡ month_answer self (Call.loss_fee Fee.basic amount.0) }
    {
        self.with_head(head::set_basic_fee(self.head(), amount))
    }

    // Sets the excess loss fee, which replaces the former; the basic fee stays.
    pub fn set_excess_fee(self, amount: Dollars) -> Result<Month, Refusal>
        ensures { result ≡ month_answer self (Call.loss_fee Fee.excess amount.0) }
    {
        self.with_head(head::set_excess_fee(self.head(), amount))
    }

    // Stops every change.
    pub fn close(self) -> Result<Month, Refusal>
        ensures { result ≡ month_answer self Call.close }
    {
        self.with_head(head::close(self.head()))
    }

    // One hour's amount.
    #[tactic(auto, unfolding(crate::specs::Month::hour_told))]
    pub fn hour(self, day: u8, hour: u8) -> Result<Dollars, Refusal>
        ensures { result ≡ hour_told self day hour }
    {
        if !self.well_formed() {
            return Err(Refusal::NotReachable);
        }
        let asked = head::place_of(day, hour);
        board::hour_in(self.head(), &self.marks, &self.amounts, asked)
    }

    // A day's sum.
    #[tactic(auto, unfolding(crate::specs::Month::day_told))]
    pub fn day(self, day: u8) -> Result<Dollars, Refusal>
        ensures { result ≡ day_told self day }
    {
        if !self.well_formed() {
            return Err(Refusal::NotReachable);
        }
        let first = head::place_of(day, 0);
        if head::places(self.days) <= first {
            return Err(Refusal::NotInMonth);
        }
        Ok(day_sum(&self.amounts, first))
    }

    // The basic loss fee as it was last set.
    #[tactic(auto, unfolding(crate::specs::Month::fee_told))]
    pub fn basic_fee(self) -> Result<Dollars, Refusal>
        ensures { result ≡ fee_told self Fee.basic }
    {
        self.told(self.basic)
    }

    // The excess loss fee as it was last set.
    #[tactic(auto, unfolding(crate::specs::Month::fee_told))]
    pub fn excess_fee(self) -> Result<Dollars, Refusal>
        ensures { result ≡ fee_told self Fee.excess }
    {
        self.told(self.excess)
    }

    // The month total: the amounts less both loss fees.
    pub fn total(self) -> Result<Dollars, Refusal>
        ensures { result ≡ total_told self }
    {
        board::total_in(self.head(), &self.marks, &self.amounts)
    }

    // How many hours stand.
    #[tactic(auto, unfolding(crate::specs::Month::standing_told, history::specs::Board::standing_on))]
    pub fn standing(self) -> Result<usize, Refusal>
        ensures { result ≡ standing_told self }
    {
        if !self.well_formed() {
            return Err(Refusal::NotReachable);
        }
        Ok(standing_on(&self.marks))
    }

    // Whether some run of calls from a fresh month hands this one back.
    fn well_formed(self) -> bool
        ensures { result ≡ well_formed (rules_of self) (board_of self) }
    {
        board::check_in(self.head(), &self.marks, &self.amounts).is_ok()
    }

    // The month without its places.
    fn head(self) -> Head
        ensures { result ≡ month_head self }
    {
        Head {
            days: self.days,
            closed: self.closed,
            basic: self.basic,
            excess: self.excess,
        }
    }

    // What a call on the head answers, with this month's places; 22 first.
    #[tactic(auto, unfolding(crate::specs::Inner::head_booked))]
    fn with_head(self, headed: Result<Head, Refusal>) -> Result<Month, Refusal>
        ensures { result ≡ head_booked self headed }
    {
        if !self.well_formed() {
            return Err(Refusal::NotReachable);
        }
        let head = headed?;
        Ok(month_in(head, self.marks, self.amounts))
    }

    // An amount that is told of this month; 22 first.
    fn told(self, amount: Dollars) -> Result<Dollars, Refusal>
        ensures { result ≡ read_out self (0, amount.0) }
    {
        if !self.well_formed() {
            return Err(Refusal::NotReachable);
        }
        Ok(amount)
    }
}

// A month put together from its head and its places.
fn month_in(head: Head, marks: [bool; limits::PLACES], amounts: [i64; limits::PLACES]) -> Month
    ensures { result ≡ month_in head marks amounts }
{
    Month {
        days: head.days,
        closed: head.closed,
        basic: head.basic,
        excess: head.excess,
        marks,
        amounts,
    }
}

// The sum of a day's amounts from its first place on.
fn day_sum(amounts: &[i64], from: usize) -> Dollars
    requires { from + hours_of_day ≤ length amounts.now }
    ensures { result ≡ dollars (unwrap_or (summed (take hours_of_day (drop from amounts.now))) (pos 0)) }
{
    Dollars(whole::sum(&amounts[from..from + limits::HOURS]).unwrap_or(0))
}

// How many marks are set. (By `filter` and `count` it took 1.3 times as long.)
fn standing_on(marks: &[bool; limits::PLACES]) -> usize
    ensures { result ≡ count_to month_places (λ p. get_or marks.now p false) }
{
    let mut standing = 0;
    for mark in marks {
        standing += usize::from(*mark);
    }
    standing
}
