// The sReg hour: its refusals in order, its scores, its rate and its fees, and the state that it ends in.
#![tactic(auto)]

ghost use Rattle.std.specs.Prelude.{◌≡◌, true, length};
ghost use Rattle.hour.specs.Hour.{terms_refusal};
ghost use Rattle.sreg_hour.specs.Hour.{sreg_hour, refused_sreg, sreg_answer, sreg_left};
ghost use Rattle.sreg_hour.specs.Inner.{sreg_worked, sreg_worked_left};

use hour::{Settlement, Terms};
use sreg::EventState;
use units::refusals;

// What an hour earned and the state that it ends in; or its refusal with zeros, and `Outside`.
#[derive(Clone, Copy)]
pub struct Settled {
    pub hour: Settlement,
    pub state: EventState,
}

// An sReg hour: its settlement and the state that it ends in, and its scores in the lent run; or its refusal, and the
// run as it was. Powers and frequencies are of the same seconds; `state` is the one that the hour before ended in, or
// `Outside`. The earlier scores are dReg's.
pub fn sreg_hour(
    powers: &[i64],
    frequencies: &[i64],
    terms: Terms,
    thresholds: &[i64],
    factors: &[i64],
    earlier: &[u8],
    state: EventState,
    scores: &mut [u8],
) -> Settled
    ensures answers { result ≡ sreg_answer (sreg_hour powers.now frequencies.now terms thresholds.now factors.now earlier.now state) (length scores.old) }
    ensures leaves { scores.new ≡ sreg_left (sreg_hour powers.now frequencies.now terms thresholds.now factors.now earlier.now state) scores.old }
{
    let k = hour::terms_refusal(
        powers.len(),
        frequencies.len(),
        earlier.len(),
        scores.len(),
        terms,
        true,
        thresholds,
        factors,
        true,
        true,
    );
    if k != 0 {
        return refused(k);
    }
    worked(
        powers,
        frequencies,
        terms,
        thresholds,
        factors,
        earlier,
        state,
        scores,
    )
}

// A refused hour: its number, zeros, and `Outside`.
fn refused(number: u8) -> Settled
    ensures { result ≡ refused_sreg number }
{
    Settled {
        hour: hour::refused_hour(number),
        state: EventState::Outside,
    }
}

// The scores by the state, and the settlement by the scores, of terms that are let through; or the refusal of the
// earlier scores, the state and the readings, and the run as it was.
fn worked(
    powers: &[i64],
    frequencies: &[i64],
    terms: Terms,
    thresholds: &[i64],
    factors: &[i64],
    earlier: &[u8],
    state: EventState,
    scores: &mut [u8],
) -> Settled
    requires { terms_refusal (length powers.now) (length frequencies.now) (length earlier.now) (length scores.old) terms true thresholds.now factors.now true true ≡ 0 }
    ensures answers { result ≡ sreg_worked (sreg_hour powers.now frequencies.now terms thresholds.now factors.now earlier.now state) (length scores.old) }
    ensures leaves { scores.new ≡ sreg_worked_left (sreg_hour powers.now frequencies.now terms thresholds.now factors.now earlier.now state) scores.old }
{
    if !rate::are_scores(earlier) {
        return refused(refusals::BAD_READING);
    }
    let ended = sreg::hour_scores(powers, frequencies, terms.capacity, state, scores);
    if ended.refusal != 0 {
        return refused(ended.refusal);
    }
    let after = ended.state;
    let rated = rate::hourly_rate(earlier, scores);
    Settled {
        hour: hour::settled_at(terms, thresholds, factors, rated.rate),
        state: after,
    }
}
