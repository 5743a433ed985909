// The check sum of settlements, states and scores.
use crate::chance;
use hour::Settlement;
use sreg::EventState;
use sreg_hour::Settled;
use units::{Dollars, Kilowatts};

// The sum with every number of a settlement.
pub(crate) fn with_settlement(sum: u64, s: Settlement) -> u64 {
    let mut m = chance::mixed(chance::mixed(sum, u64::from(s.refusal)), u64::from(s.rate));
    m = chance::with_number(m, s.factor);
    m = with_dollars(m, s.capacity);
    m = with_dollars(m, s.performance);
    m = with_dollars(m, s.quality);
    m = with_dollars(m, s.energy);
    with_dollars(m, s.amount)
}

// The sum with an sReg hour's settlement and the state that it ends in.
pub(crate) fn with_settled(sum: u64, s: Settled) -> u64 {
    with_state(with_settlement(sum, s.hour), s.state)
}

// The sum with every score.
pub(crate) fn with_scores(sum: u64, scores: &[u8]) -> u64 {
    scores
        .iter()
        .fold(sum, |m, score| chance::mixed(m, u64::from(*score)))
}

fn with_dollars(sum: u64, dollars: Dollars) -> u64 {
    chance::with_number(sum, dollars.0)
}

fn with_state(sum: u64, state: EventState) -> u64 {
    match state {
        EventState::Outside => with_place(sum, 0, Kilowatts(0), 0),
        EventState::Responding { start, scored } => with_place(sum, 1, start, scored),
        EventState::Holding { start } => with_place(sum, 2, start, 0),
        EventState::Recovering { left } => with_place(sum, 3, Kilowatts(0), left),
    }
}

fn with_place(sum: u64, kind: u64, start: Kilowatts, count: u8) -> u64 {
    let m = chance::with_number(chance::mixed(sum, kind), start.0);
    chance::mixed(m, u64::from(count))
}
