// The transfer ramp (document 000, formula 1): what an E-dReg battery transfers in each second of a quarter.
#![tactic(auto)]

ghost use Rattle.std.specs.Prelude.{◌≡◌, ℕ, ◌*◌, ◌≤◌, ◌<◌, pos, ◌*ℤ◌, length};
ghost use Rattle.whole.specs.Whole.{Within, away};
ghost use Rattle.units.specs.Limits.{most_transfer, seconds_of_quarter, seconds_of_ramp};
ghost use Rattle.units.specs.Refusals.{result_by};
ghost use Rattle.ramp.specs.Ramp.{ramp_at, ramp_of, ramp_refusal, ramp_left, plan_of, plan_refusal, plan_left};

use units::{Kilowatts, Refusal, limits};

const LEAST_TRANSFER: i64 = -limits::TRANSFER;

// What a second's part of the way is divided by.
const RAMP: i64 = limits::RAMP as i64;

// Fills a run of 900 with a quarter's seconds 1 to 900; or 1 or 10, and a refused run stays as it was.
#[tactic(auto, using(crate::proofs::Laws::ramp_fit, units::proofs::Numbered::let_through), unfolding(crate::specs::Ramp::ramp_left))]
pub fn ramp(last: Kilowatts, target: Kilowatts, seconds: &mut [i64]) -> Result<(), Refusal>
    ensures { (result ≡ result_by (ramp_refusal last target (length seconds.old)) tt) × (seconds.new ≡ ramp_left last target seconds.old) }
{
    refusal(last, target, seconds.len())?;
    fill(last.0, target.0, seconds);
    Ok(())
}

// Fills a run of 3,600 with an hour's transfers by its five targets: the one before the hour and those of its quarters.
// Or 1 or 10, and a refused run stays as it was.
#[tactic(auto, using(units::proofs::Numbered::let_through), unfolding(crate::specs::Ramp::plan_left))]
pub fn plan(targets: &[i64], seconds: &mut [i64]) -> Result<(), Refusal>
    ensures { (result ≡ result_by (plan_refusal targets.now (length seconds.old)) tt) × (seconds.new ≡ plan_left targets.now seconds.old) }
{
    plan_refusal(targets, seconds.len())?;
    fill_hour(targets, seconds);
    Ok(())
}

// 1, 10 of a ramp.
#[tactic(auto, unfolding(crate::specs::Ramp::ramp_refusal))]
fn refusal(last: Kilowatts, target: Kilowatts, places: usize) -> Result<(), Refusal>
    ensures { result ≡ result_by (ramp_refusal last target places) tt }
{
    if places != limits::QUARTER {
        return Err(Refusal::WrongLength);
    }
    if !whole::within(last.0, LEAST_TRANSFER, limits::TRANSFER) {
        return Err(Refusal::BadTransfer);
    }
    if !whole::within(target.0, LEAST_TRANSFER, limits::TRANSFER) {
        return Err(Refusal::BadTransfer);
    }
    Ok(())
}

// Seconds 1 to 900, from place 0 on: those that move, then the target.
fn fill(last: i64, target: i64, seconds: &mut [i64])
    requires { (length seconds.old ≡ seconds_of_quarter) × (Within most_transfer last × Within most_transfer target) }
    ensures { seconds.new ≡ ramp_of last target }
{
    let (moves, level) = seconds.split_at_mut(moving(last, target));
    for (i, second) in moves.iter_mut().enumerate() {
        *second = ramping(last, target, i + 1);
    }
    level.fill(target);
}

// How many seconds move: none where the target stays what it was.
#[tactic(auto, using(crate::proofs::Laws::ramp_level), unfolding(crate::specs::Ramp::ramp_at))]
fn moving(last: i64, target: i64) -> usize
    ensures { (result ≤ seconds_of_ramp) × ((n : ℕ) → result < n → ramp_at last target n ≡ target) }
{
    if last == target {
        return 0;
    }
    limits::RAMP
}

// Second n of the quarter, while the ramp lasts.
fn ramping(last: i64, target: i64, n: usize) -> i64
    requires { Within most_transfer last × (Within most_transfer target × (n ≤ seconds_of_ramp)) }
    ensures { result ≡ ramp_at last target n }
{
    if last < target {
        return last + ramped(target - last, n);
    }
    last - ramped(last - target, n)
}

// How far second n is from the last target, where the new one is so far from it.
fn ramped(apart: i64, n: usize) -> i64
    requires { Within (2 * most_transfer) apart × (n ≤ seconds_of_ramp) }
    ensures { result ≡ away (apart *ℤ pos n) seconds_of_ramp }
{
    whole::away(apart * (n as i64), RAMP)
}

// 1, 10 of a plan.
#[tactic(auto, unfolding(crate::specs::Ramp::plan_refusal))]
fn plan_refusal(targets: &[i64], places: usize) -> Result<(), Refusal>
    ensures { result ≡ result_by (plan_refusal targets.now places) tt }
{
    if (targets.len() != 5) | (places != limits::SECONDS) {
        return Err(Refusal::WrongLength);
    }
    if !whole::all_within(targets, LEAST_TRANSFER, limits::TRANSFER) {
        return Err(Refusal::BadTransfer);
    }
    Ok(())
}

// The four quarters, one after the other.
fn fill_hour(targets: &[i64], seconds: &mut [i64])
    requires { plan_refusal targets.now (length seconds.old) ≡ 0 }
    ensures { seconds.new ≡ plan_of targets.now }
{
    for q in 0..4 {
        let start = q * limits::QUARTER;
        let quarter = &mut seconds[start..start + limits::QUARTER];
        fill(targets[q], targets[q + 1], quarter);
    }
}
