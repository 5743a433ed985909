// The joint calls: an hour worked out and its amount posted. They stand above the ledger and use the ledger's
// contracts only.
#![tactic(auto)]

ghost use Rattle.std.specs.Prelude.{◌≡◌};
ghost use Rattle.units.specs.Refusals.{told_number};
ghost use Rattle.head.specs.Inner.{standing_after};
ghost use Rattle.hour.specs.Hour.{edreg_hour};
ghost use Rattle.sreg_hour.specs.Hour.{sreg_hour};
ghost use Rattle.joint.specs.Joint.{joined, posted_of, joint_of, beside_state, sreg_joint_of};

use hour::{Settlement, Shift, Terms};
use month::Month;
use sreg::EventState;
use units::{Millihertz, Refusal, limits, refusals};

// The least amount that the ledger takes.
const LEAST: i64 = -limits::AMOUNT;

// The hour's numbers, its refusal first, and the ledger after it.
#[derive(Clone, Copy)]
pub struct Joined {
    pub hour: Settlement,
    pub month: Month,
}

// The same of an sReg hour, and the state that it ends in; `Outside` beside any refusal, the ledger's too.
#[derive(Clone, Copy)]
pub struct StateJoined {
    pub joined: Joined,
    pub state: EventState,
}

// Works an E-dReg hour out and posts its amount; a dReg hour is one that shifts nothing.
pub fn joint(
    powers: &[i64],
    frequencies: &[i64],
    terms: Terms,
    reference: Millihertz,
    shift: Shift,
    thresholds: &[i64],
    factors: &[i64],
    earlier: &[u8],
    month: Month,
    day: u8,
    hour: u8,
) -> Joined
    ensures { result ≡ joint_of (edreg_hour powers.now frequencies.now terms reference shift thresholds.now factors.now earlier.now) month day hour }
{
    let mut scores: [u8; limits::SECONDS] = [0; limits::SECONDS];
    let worked = hour::hour(
        powers,
        frequencies,
        terms,
        reference,
        shift,
        thresholds,
        factors,
        earlier,
        &mut scores,
    );
    posted(worked, month, day, hour)
}

// Works an sReg hour out and posts its amount.
pub fn sreg_joint(
    powers: &[i64],
    frequencies: &[i64],
    terms: Terms,
    thresholds: &[i64],
    factors: &[i64],
    earlier: &[u8],
    state: EventState,
    month: Month,
    day: u8,
    hour: u8,
) -> StateJoined
    ensures { result ≡ sreg_joint_of (sreg_hour powers.now frequencies.now terms thresholds.now factors.now earlier.now state) month day hour }
{
    let mut scores: [u8; limits::SECONDS] = [0; limits::SECONDS];
    let settled = sreg_hour::sreg_hour(
        powers,
        frequencies,
        terms,
        thresholds,
        factors,
        earlier,
        state,
        &mut scores,
    );
    let worked = settled.hour;
    let after = settled.state;
    let joined = posted(worked, month, day, hour);
    beside(joined, after)
}

// The state beside an hour that is posted, and `Outside` beside a refusal.
#[tactic(auto, unfolding(crate::specs::Joint::beside_state))]
fn beside(joined: Joined, after: EventState) -> StateJoined
    ensures { result ≡ beside_state joined after }
{
    let posted = joined.hour;
    if posted.refusal == 0 {
        return StateJoined {
            joined,
            state: after,
        };
    }
    StateJoined {
        joined,
        state: EventState::Outside,
    }
}

// The hour's refusal, 16, the ledger's.
#[tactic(auto, using(history::proofs::Orders::own_last), unfolding(crate::specs::Joint::posted_of))]
fn posted(worked: Settlement, month: Month, day: u8, hour: u8) -> Joined
    ensures { result ≡ posted_of worked month day hour }
{
    let amount = worked.amount;
    let booked = month.post(day, hour, amount);
    let (number, next) = told(booked, month);
    let size = amount.0;
    let range = whole::within(size, LEAST, limits::AMOUNT);
    let ledger = whole::unless(range, refusals::BAD_AMOUNT, number);
    let k = whole::or_else(worked.refusal, ledger);
    join(k, worked, next, month)
}

// The number of the ledger's answer, and the ledger that stands after it.
fn told(booked: Result<Month, Refusal>, month: Month) -> (u8, Month)
    ensures { result ≡ (told_number booked, standing_after month booked) }
{
    match booked {
        Ok(next) => (0, next),
        Err(refusal) => (refusal.number(), month),
    }
}

// The hour and the next ledger; where k refuses, k alone and the ledger as it was.
#[tactic(auto, unfolding(crate::specs::Joint::joined))]
fn join(k: u8, hour: Settlement, next: Month, month: Month) -> Joined
    ensures { result ≡ joined k hour next month }
{
    if k == 0 {
        return Joined { hour, month: next };
    }
    Joined {
        hour: hour::refused_hour(k),
        month,
    }
}
