// The month ledger's calls in place, on two lent runs (marks and amounts, in dollars) with the head by value.
// Anything may be lent: a call refuses runs that are not the ledger's by their lengths (1) and a head that no run of
// calls hands back (22); `check_in` and `total_in` test the places too.
#![tactic(auto)]

ghost use Rattle.std.specs.Prelude.{◌≡◌, false, ◌&&◌, eqb, length, get_or, set};
ghost use Rattle.whole.specs.Choice.{unless, in_order};
ghost use Rattle.units.specs.Limits.{month_places, is_amount};
ghost use Rattle.units.specs.Refusals.{place_empty, result_by};
ghost use Rattle.history.specs.Rules.{Deed, deed_tests};
ghost use Rattle.history.specs.Inner.{open_left, ledger_refusal, hour_in, total_in};
ghost use Rattle.head.specs.Rules.{amount_item, month_rules};
ghost use Rattle.head.specs.Inner.{board_in, fresh_head};
ghost use Rattle.board.specs.Board.{place_ruled, place_handed, opened_in, told_of};
ghost use Rattle.board.specs.Inner.{deed_of, opened_on, place_fits, places_fit};

use head::Head;
use units::{Dollars, Refusal, limits};

// What a call does at its place.
#[derive(Clone, Copy)]
enum Act {
    Post(Dollars),
    Replace(Dollars),
    Withdraw,
}

// Puts an amount at a place that is empty.
pub fn post_in(
    head: Head,
    marks: &mut [bool],
    amounts: &mut [i64],
    place: usize,
    amount: Dollars,
) -> Result<(), Refusal>
    ensures answers { result ≡ result_by (place_ruled head marks.old amounts.old place (Deed.posts (amount_item amount.0))) tt }
    ensures leaves { board_in head marks.new amounts.new ≡ place_handed head marks.old amounts.old place (Deed.posts (amount_item amount.0)) }
{
    act_in(head, marks, amounts, place, Act::Post(amount))
}

// Puts another amount at a place that stands.
pub fn replace_in(
    head: Head,
    marks: &mut [bool],
    amounts: &mut [i64],
    place: usize,
    amount: Dollars,
) -> Result<(), Refusal>
    ensures answers { result ≡ result_by (place_ruled head marks.old amounts.old place (Deed.replaces (amount_item amount.0))) tt }
    ensures leaves { board_in head marks.new amounts.new ≡ place_handed head marks.old amounts.old place (Deed.replaces (amount_item amount.0)) }
{
    act_in(head, marks, amounts, place, Act::Replace(amount))
}

// Empties a place that stands.
pub fn withdraw_in(
    head: Head,
    marks: &mut [bool],
    amounts: &mut [i64],
    place: usize,
) -> Result<(), Refusal>
    ensures answers { result ≡ result_by (place_ruled head marks.old amounts.old place Deed.withdraws) tt }
    ensures leaves { board_in head marks.new amounts.new ≡ place_handed head marks.old amounts.old place Deed.withdraws }
{
    act_in(head, marks, amounts, place, Act::Withdraw)
}

// Opens a month: both runs are cleared.
#[tactic(auto, using(crate::proofs::Core::opening))]
pub fn open_in(days: u8, marks: &mut [bool], amounts: &mut [i64]) -> Result<Head, Refusal>
    ensures answers { result ≡ opened_in days marks.old amounts.old }
    ensures marks { marks.new ≡ (open_left (month_rules days) (board_in (fresh_head days) marks.old amounts.old)).marks }
    ensures amounts { amounts.new ≡ (open_left (month_rules days) (board_in (fresh_head days) marks.old amounts.old)).amounts }
{
    let head = opened_on(days, marks.len(), amounts.len())?;
    marks.fill(false);
    amounts.fill(0);
    Ok(head)
}

// Whether some run of calls from a fresh month hands this ledger back: 1, 22 where none does.
#[tactic(auto, unfolding(history::specs::Inner::ledger_refusal, history::specs::Board::well_formed))]
pub fn check_in<'a>(head: Head, marks: &'a [bool], amounts: &'a [i64]) -> Result<(), Refusal>
    ensures { result ≡ result_by (ledger_refusal (month_rules head.days) (board_in head marks.now amounts.now)) tt }
{
    if !runs_fit(marks.len(), amounts.len()) {
        return Err(Refusal::WrongLength);
    }
    if !(head::fits(head) & places_fit(head.days, marks, amounts)) {
        return Err(Refusal::NotReachable);
    }
    Ok(())
}

// One hour's amount.
#[tactic(auto, using(whole::proofs::Choice::kept_new), unfolding(history::specs::Inner::hour_in))]
pub fn hour_in<'a>(
    head: Head,
    marks: &'a [bool],
    amounts: &'a [i64],
    place: usize,
) -> Result<Dollars, Refusal>
    ensures { result ≡ told_of (hour_in (month_rules head.days) (board_in head marks.now amounts.now) place) }
{
    if !runs_fit(marks.len(), amounts.len()) {
        return Err(Refusal::WrongLength);
    }
    if !head::fits(head) {
        return Err(Refusal::NotReachable);
    }
    if place >= head::places(head.days) {
        return Err(Refusal::NotInMonth);
    }
    if !mark_at(marks, place) {
        return Err(Refusal::PlaceEmpty);
    }
    Ok(Dollars(whole::at(amounts, place)))
}

// The month total: the amounts less both loss fees.
pub fn total_in<'a>(head: Head, marks: &'a [bool], amounts: &'a [i64]) -> Result<Dollars, Refusal>
    ensures { result ≡ told_of (total_in (month_rules head.days) (board_in head marks.now amounts.now)) }
{
    check_in(head, marks, amounts)?;
    let sum = whole::sum(amounts).unwrap_or(0);
    Ok(Dollars(sum - head.basic.0 - head.excess.0))
}

// A call at a place: what is let through is put there.
fn act_in(
    head: Head,
    marks: &mut [bool],
    amounts: &mut [i64],
    place: usize,
    act: Act,
) -> Result<(), Refusal>
    ensures answers { result ≡ result_by (place_ruled head marks.old amounts.old place (deed_of act)) tt }
    ensures leaves { board_in head marks.new amounts.new ≡ place_handed head marks.old amounts.old place (deed_of act) }
{
    place_ruled(head, marks, amounts, place, act)?;
    match act {
        Act::Post(amount) | Act::Replace(amount) => put(marks, amounts, place, true, amount),
        Act::Withdraw => put(marks, amounts, place, false, Dollars(0)),
    }
    Ok(())
}

// What a call at a place is refused with: 1, 22, 9, 6, 3, then 7 or 8.
#[tactic(auto, unfolding(history::specs::Inner::ruled_at))]
fn place_ruled(
    head: Head,
    marks: &[bool],
    amounts: &[i64],
    place: usize,
    act: Act,
) -> Result<(), Refusal>
    ensures { result ≡ result_by (place_ruled head marks.now amounts.now place (deed_of act)) tt }
{
    if !runs_fit(marks.len(), amounts.len()) {
        return Err(Refusal::WrongLength);
    }
    if !head::fits(head) {
        return Err(Refusal::NotReachable);
    }
    if head.closed {
        return Err(Refusal::MonthClosed);
    }
    if head::places(head.days) <= place {
        return Err(Refusal::NotInMonth);
    }
    act_refusal(act, marks[place])
}

// Whether the two runs are the ledger's, by their lengths.
fn runs_fit(marks: usize, amounts: usize) -> bool
    ensures { result ≡ (eqb marks month_places && eqb amounts month_places) }
{
    (marks == limits::PLACES) & (amounts == limits::PLACES)
}

// 3, then 7 where the place has to be empty and is not, or 8 where it has to stand and does not.
fn act_refusal(act: Act, mark: bool) -> Result<(), Refusal>
    ensures { result ≡ result_by (in_order (deed_tests (month_rules 0) mark (deed_of act))) tt }
{
    match act {
        Act::Post(amount) => {
            if !fits(amount) {
                return Err(Refusal::BadMoney);
            }
            if mark {
                return Err(Refusal::PlaceFilled);
            }
            Ok(())
        }
        Act::Replace(amount) => {
            if !fits(amount) {
                return Err(Refusal::BadMoney);
            }
            stands(mark)
        }
        Act::Withdraw => stands(mark),
    }
}

// 8 where a place is empty.
fn stands(mark: bool) -> Result<(), Refusal>
    ensures { result ≡ result_by (unless mark place_empty 0) tt }
{
    if !mark {
        return Err(Refusal::PlaceEmpty);
    }
    Ok(())
}

// Whether an amount is one that may stand in the ledger.
fn fits(amount: Dollars) -> bool
    ensures { result ≡ is_amount amount.0 }
{
    whole::within(amount.0, -limits::AMOUNT, limits::AMOUNT)
}

// Puts a mark and an amount at a place.
fn put(marks: &mut [bool], amounts: &mut [i64], at: usize, fill: bool, amount: Dollars)
    ensures marks { marks.new ≡ set marks.old at fill }
    ensures amounts { amounts.new ≡ set amounts.old at amount.0 }
{
    put_at(marks, at, fill);
    put_at(amounts, at, amount.0);
}

// Puts a value at a place; past the end nothing is written.
// `get_mut` says nothing of what is written through it.
#[tactic(auto, using(std::proofs::lemmas::List::set_past))]
fn put_at<T: Copy>(run: &mut [T], at: usize, value: T)
    ensures { run.new ≡ set run.old at value }
{
    if at < run.len() {
        run[at] = value;
    }
}

// The head of a month that opens on runs of those lengths.
#[tactic(auto, unfolding(head::specs::Inner::opened_head))]
fn opened_on(days: u8, marks: usize, amounts: usize) -> Result<Head, Refusal>
    ensures { result ≡ opened_on days marks amounts }
{
    if !runs_fit(marks, amounts) {
        return Err(Refusal::WrongLength);
    }
    head::open(days)
}

fn places_fit(days: u8, marks: &[bool], amounts: &[i64]) -> bool
    requires { (length marks.now ≡ month_places) × (length amounts.now ≡ month_places) }
    ensures { result ≡ places_fit days marks.now amounts.now }
{
    marks.iter().zip(amounts).enumerate().all(|(p, (mark, amount))| place_fits(
        days,
        p,
        *mark,
        Dollars(*amount),
    ))
}

// Whether a place of the month that is filled has an amount in the range, and any other place is empty with 0.
fn place_fits(days: u8, p: usize, mark: bool, amount: Dollars) -> bool
    ensures { result ≡ place_fits days p mark amount.0 }
{
    if mark {
        (p < head::places(days)) & fits(amount)
    } else {
        amount.0 == 0
    }
}

// Whether a place is filled; past the end none is.
fn mark_at(marks: &[bool], at: usize) -> bool
    ensures { result ≡ get_or marks.now at false }
{
    marks.get(at).copied().unwrap_or(false)
}
