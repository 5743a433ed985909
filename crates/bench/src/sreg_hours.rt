// sReg hours, one after the other. Before each, one power is drawn anew. An hour is handed the state that the hour
// before ended in and its last three scores; the first one begins outside, after zeros.
use crate::readings::Rule;
use crate::{chance, hours, readings, sums};
use hour::Terms;
use sreg::EventState;
use sreg_hour::Settled;
use units::limits;

// By frequencies of this rule.
pub(crate) fn run(rule: Rule, capacity: u64, count: u64) -> u64 {
    let mut powers = [0; limits::SECONDS];
    let mut frequencies = [0; limits::SECONDS];
    let mut scores = [0u8; limits::SECONDS];
    readings::fill(&mut powers, Rule::Consumed, 1);
    readings::fill(&mut frequencies, rule, 7);
    each(
        &mut powers,
        &frequencies,
        hours::terms_of(capacity),
        &mut scores,
        count,
    )
}

fn each(
    powers: &mut [i64],
    frequencies: &[i64],
    terms: Terms,
    scores: &mut [u8],
    count: u64,
) -> u64 {
    let mut x = 2;
    let mut sum = 0;
    let mut state = EventState::Outside;
    for n in 0..count {
        x = chance::next(x);
        redraw(powers, n, x);
        let s = settled(powers, frequencies, terms, state, scores);
        state = s.state;
        sum = sums::with_settled(sum, s);
    }
    sums::with_scores(sum, scores)
}

fn redraw(powers: &mut [i64], n: u64, x: u64) {
    let place = (n % limits::SECONDS as u64) as usize;
    if place < powers.len() {
        let p = readings::consumed(x);
        powers[place] = p;
    }
}

fn settled(
    powers: &[i64],
    frequencies: &[i64],
    terms: Terms,
    state: EventState,
    scores: &mut [u8],
) -> Settled {
    let earlier = hours::last_three(scores);
    sreg_hour::sreg_hour(
        powers,
        frequencies,
        terms,
        &hours::THRESHOLDS,
        &hours::FACTORS,
        &earlier,
        state,
        scores,
    )
}
