// Static regulation (sReg): the scores of an hour's seconds by their powers and frequencies, and the state that they
// end in.
#![tactic(auto)]

ghost use Rattle.std.specs.Prelude.{◌≡◌, true, ◌&&◌, ◌≤◌, ◌*◌, pos, length};
ghost use Rattle.whole.specs.Whole.{Within, Between};
ghost use Rattle.units.specs.Limits.{is_capacity, is_power, is_frequency, most_capacity, most_power};
ghost use Rattle.units.specs.Units.{kilowatts};
ghost use Rattle.sreg.specs.Second.{percent_of, starts, ends, score_in, unless_starts, unless_ends, one_scored, one_less, next_state, is_state};
ghost use Rattle.sreg.specs.Run.{scores_from, sreg_ended, sreg_scores_left};
ghost use Rattle.sreg.specs.Inner.{state_of, all_read, before_readings, judged_of};

use units::{Kilowatts, limits, refusals};

const LEAST_POWER: i64 = -limits::POWER;

const MOST_SCORE: i64 = limits::SCORE as i64;

// The frequencies that start an event and end it, in mHz.
const START: i64 = 59_880;

const END: i64 = 59_980;

// Where an hour ends: outside an event; in an event's first ten seconds, with the start second's power and how many of
// the ten are scored, 1 to 9; in it from then on; in the ten seconds after it, with how many are left, 1 to 10.
#[derive(Clone, Copy)]
pub enum EventState {
    Outside,
    Responding { start: Kilowatts, scored: u8 },
    Holding { start: Kilowatts },
    Recovering { left: u8 },
}

// The state that an hour ends in, or its refusal with `Outside`.
#[derive(Clone, Copy)]
pub struct Ended {
    pub refusal: u8,
    pub state: EventState,
}

// The scores of an hour's seconds, each by its power and its frequency, from the state that the hour before ended in; a
// refused run stays as it was. One pass tests the readings and scores them; its scores are handed over once every
// reading has passed.
#[tactic(auto, using(crate::proofs::Laws::first_refused))]
pub fn hour_scores(
    powers: &[i64],
    frequencies: &[i64],
    capacity: Kilowatts,
    state: EventState,
    scores: &mut [u8],
) -> Ended
    ensures answers { result ≡ sreg_ended powers.now frequencies.now capacity state (length scores.old) }
    ensures leaves { scores.new ≡ sreg_scores_left powers.now frequencies.now capacity state scores.old }
{
    let k = before_readings(
        powers.len(),
        frequencies.len(),
        scores.len(),
        capacity,
        state,
    );
    if k != 0 {
        return Ended {
            refusal: k,
            state: EventState::Outside,
        };
    }
    judged_hour(powers, frequencies, capacity, state, scores)
}

// 1, 2, and 4 for the state; 0 lets the readings be looked at.
#[tactic(auto, unfolding(crate::specs::Inner::before_readings))]
fn before_readings(
    powers: usize,
    frequencies: usize,
    places: usize,
    capacity: Kilowatts,
    state: EventState,
) -> u8
    ensures { result ≡ before_readings powers frequencies places capacity state }
{
    let long = (powers == limits::SECONDS)
        & (frequencies == limits::SECONDS)
        & (places == limits::SECONDS);
    let on_state = whole::unless(is_state(state), refusals::BAD_READING, 0);
    let sized = whole::within(capacity.0, 1, limits::CAPACITY);
    let on_capacity = whole::unless(sized, refusals::BAD_CAPACITY, on_state);
    whole::unless(long, refusals::WRONG_LENGTH, on_capacity)
}

// Whether an hour can end in the state.
fn is_state(state: EventState) -> bool
    ensures { result ≡ is_state state }
{
    match state {
        EventState::Outside => true,
        EventState::Responding { start, scored } => {
            is_power(start.0) & ((1 <= scored) & (scored <= 9))
        }
        EventState::Holding { start } => is_power(start.0),
        EventState::Recovering { left } => (1 <= left) & (left <= 10),
    }
}

fn is_power(power: i64) -> bool
    ensures { result ≡ is_power power }
{
    whole::within(power, LEAST_POWER, limits::POWER)
}

fn judged_hour(
    powers: &[i64],
    frequencies: &[i64],
    capacity: Kilowatts,
    state: EventState,
    scores: &mut [u8],
) -> Ended
    requires { before_readings (length powers.now) (length frequencies.now) (length scores.old) capacity state ≡ 0 }
    ensures answers { result ≡ sreg_ended powers.now frequencies.now capacity state (length scores.old) }
    ensures leaves { scores.new ≡ sreg_scores_left powers.now frequencies.now capacity state scores.old }
{
    let mut room = [0u8; limits::SECONDS];
    let Some(after) = judge(powers, frequencies, capacity, state, &mut room) else {
        return Ended {
            refusal: refusals::BAD_READING,
            state: EventState::Outside,
        };
    };
    scores.copy_from_slice(&room);
    Ended {
        refusal: 0,
        state: after,
    }
}

// THE PASS over an hour's seconds: the state after them where the readings all fit.
fn judge(
    powers: &[i64],
    frequencies: &[i64],
    capacity: Kilowatts,
    state: EventState,
    scores: &mut [u8],
) -> Option<EventState>
    requires { before_readings (length powers.now) (length frequencies.now) (length scores.old) capacity state ≡ 0 }
    ensures finds { result ≡ judged_of state powers.now frequencies.now }
    ensures scores { all_read powers.now frequencies.now ≡ true → scores.new ≡ scores_from state capacity.0 powers.now frequencies.now }
{
    let mut reached = place_of(state);
    // (By places: what is written through a `zip` of `iter_mut` is not known after it.)
    for (i, &power) in powers.iter().enumerate() {
        let frequency = frequencies[i];
        if !is_reading(power, frequency) {
            return None;
        }
        scores[i] = score_in(reached, power, frequency, capacity);
        reached = next_state(reached, power, frequency);
    }
    Some(state_of(reached))
}

fn is_reading(power: i64, frequency: i64) -> bool
    ensures { result ≡ (is_power power && is_frequency frequency) }
{
    is_power(power) & whole::within(frequency, limits::LEAST_FREQUENCY, limits::MOST_FREQUENCY)
}

// A state as three numbers of 64 bits, which a loop carries faster than the enum: 0 outside; 1 responding, with the
// start power and the seconds scored; 2 holding, with the start power; 3 recovering, with the seconds left.
#[derive(Clone, Copy)]
struct Place {
    kind: u64,
    power: i64,
    count: u64,
}

fn place_of(state: EventState) -> Place
    ensures { state_of result ≡ state }
{
    match state {
        EventState::Outside => Place {
            kind: 0,
            power: 0,
            count: 0,
        },
        EventState::Responding { start, scored } => Place {
            kind: 1,
            power: start.0,
            count: u64::from(scored),
        },
        EventState::Holding { start } => Place {
            kind: 2,
            power: start.0,
            count: 0,
        },
        EventState::Recovering { left } => Place {
            kind: 3,
            power: 0,
            count: u64::from(left),
        },
    }
}

fn state_of(place: Place) -> EventState
    requires { is_state (state_of place) ≡ true }
    ensures { result ≡ state_of place }
{
    let Place { kind, power, count } = place;
    match kind {
        0 => EventState::Outside,
        1 => EventState::Responding {
            start: Kilowatts(power),
            scored: count as u8,
        },
        2 => EventState::Holding {
            start: Kilowatts(power),
        },
        _ => EventState::Recovering { left: count as u8 },
    }
}

// A second's score, by the state before it. (By ifs, here and below: by matches and a clamp hours in order take a tenth
// longer.)
fn score_in(place: Place, power: i64, frequency: i64, capacity: Kilowatts) -> u8
    requires { (is_state (state_of place) ≡ true) × ((is_power power ≡ true) × (is_capacity capacity.0 ≡ true)) }
    ensures { result ≡ score_in (state_of place) power frequency capacity.0 }
{
    let start = place.power;
    if place.kind == 0 {
        if starts(frequency) {
            return limits::SCORE;
        }
        return percent(power, capacity.0);
    }
    if place.kind == 2 {
        return percent(start - power, capacity.0);
    }
    limits::SCORE
}

// The nearest whole percent of a power over capacity, held to 0 to 100.
#[tactic(auto, unfolding(crate::specs::Second::percent_of))]
fn percent(power: i64, capacity: i64) -> u8
    requires { Within (2 * most_power) power × Between (pos 1) (pos most_capacity) capacity }
    ensures { result ≡ percent_of power capacity }
{
    let p = whole::nearest(power * 100, capacity);
    if p < 0 {
        return 0;
    }
    if MOST_SCORE < p {
        return limits::SCORE;
    }
    p as u8
}

#[tactic(auto, unfolding(crate::specs::Second::starts))]
fn starts(frequency: i64) -> bool
    ensures { result ≡ starts frequency }
{
    frequency <= START
}

#[tactic(auto, unfolding(crate::specs::Second::ends))]
fn ends(frequency: i64) -> bool
    ensures { result ≡ ends frequency }
{
    END <= frequency
}

// The state after a second.
fn next_state(place: Place, power: i64, frequency: i64) -> Place
    requires { is_state (state_of place) ≡ true }
    ensures { state_of result ≡ next_state (state_of place) power frequency }
{
    if place.kind == 0 {
        return unless_starts(power, frequency, place);
    }
    if place.kind == 1 {
        return unless_ends(frequency, one_scored(place));
    }
    if place.kind == 2 {
        return unless_ends(frequency, place);
    }
    unless_starts(power, frequency, one_less(place))
}

// An event starts in this second, or what was goes on.
#[tactic(auto, unfolding(crate::specs::Second::unless_starts))]
fn unless_starts(power: i64, frequency: i64, place: Place) -> Place
    ensures { state_of result ≡ unless_starts power frequency (state_of place) }
{
    if starts(frequency) {
        return Place {
            kind: 1,
            power,
            count: 1,
        };
    }
    place
}

// An event ends in this second, or goes on.
#[tactic(auto, unfolding(crate::specs::Second::unless_ends))]
fn unless_ends(frequency: i64, place: Place) -> Place
    ensures { state_of result ≡ unless_ends frequency (state_of place) }
{
    if ends(frequency) {
        return Place {
            kind: 3,
            power: 0,
            count: 10,
        };
    }
    place
}

// One more of an event's first ten seconds is scored.
fn one_scored(place: Place) -> Place
    requires { place.count ≤ 9 }
    ensures { state_of result ≡ one_scored (kilowatts place.power) place.count }
{
    let Place { power, count, .. } = place;
    if count == 9 {
        return Place {
            kind: 2,
            power,
            count: 0,
        };
    }
    Place {
        kind: 1,
        power,
        count: count + 1,
    }
}

// One less of the ten seconds after an event is left.
fn one_less(place: Place) -> Place
    requires { 1 ≤ place.count }
    ensures { state_of result ≡ one_less place.count }
{
    let count = place.count;
    if count == 1 {
        return Place {
            kind: 0,
            power: 0,
            count: 0,
        };
    }
    Place {
        kind: 3,
        power: 0,
        count: count - 1,
    }
}
