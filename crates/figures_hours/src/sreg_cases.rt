// sReg hours: events, and hours that are handed the state of the one before.
use crate::readings::Rule;
use crate::{hour_cases, readings};
use hour::Terms;
use sreg::EventState;
use sreg_hour::Settled;
use std::io;
use units::limits;

// 10 MW; from 12 minutes 10 seconds to 12 minutes 30.
pub(crate) fn table_2(rt: &impl Print) -> io::Result<()> {
    println!(rt; "document 001, table 2: an sReg event")?;
    let mut powers = [0i64; limits::SECONDS];
    readings::fill(&mut powers, 0, limits::SECONDS, Rule::Table2);
    from_eleventh(rt, &powers)
}

// The paper prints the eleven seconds that the event judges.
fn from_eleventh(rt: &impl Print, powers: &[i64]) -> io::Result<()> {
    let mut frequencies = [59_881i64; limits::SECONDS];
    let mut scores = [7u8; limits::SECONDS];
    event(&mut frequencies, 730, 750);
    from_outside(rt, "the hour", powers, &frequencies, &mut scores)?;
    score_line(rt, &scores[740..751])?;
    rolling_line(rt, &scores[737..751])
}

// From a second at 59,880 to one at 59,980. In between the frequency is just below, which ends no event; outside, it
// is 59,881, which starts none.
pub(crate) fn event(frequencies: &mut [i64], first: usize, last: usize) {
    readings::stretch(frequencies, first, last, 59_979);
    readings::put(frequencies, first, 59_880);
    readings::put(frequencies, last, 59_980);
}

fn from_outside(
    rt: &impl Print,
    label: &str,
    powers: &[i64],
    frequencies: &[i64],
    scores: &mut [u8],
) -> io::Result<EventState> {
    let none = [0u8; 0];
    after(
        rt,
        label,
        powers,
        frequencies,
        &none,
        EventState::Outside,
        scores,
    )
}

// The hour after one that ended in these scores and this state.
fn after(
    rt: &impl Print,
    label: &str,
    powers: &[i64],
    frequencies: &[i64],
    earlier: &[u8],
    state: EventState,
    scores: &mut [u8],
) -> io::Result<EventState> {
    let terms = hour_cases::terms();
    work(
        rt,
        label,
        powers,
        frequencies,
        terms,
        10,
        earlier,
        state,
        scores,
    )
}

// An hour on list S with this first factor: its settlement, a check sum of the run that it leaves, its state.
pub(crate) fn work(
    rt: &impl Print,
    label: &str,
    powers: &[i64],
    frequencies: &[i64],
    terms: Terms,
    factor: i64,
    earlier: &[u8],
    state: EventState,
    scores: &mut [u8],
) -> io::Result<EventState> {
    let thresholds = [95i64, 94, 93, 92, 91, 70, 0];
    let factors = [factor, 8, 6, 4, 2, 0, -10];
    let s = sreg_hour::sreg_hour(
        powers,
        frequencies,
        terms,
        &thresholds,
        &factors,
        earlier,
        state,
        scores,
    );
    told(rt, label, s, scores)
}

fn told(rt: &impl Print, label: &str, s: Settled, scores: &[u8]) -> io::Result<EventState> {
    hour_cases::settlement(rt, label, s.hour)?;
    print!(rt; " {}", readings::score_sum(scores))?;
    state_told(rt, s.state)?;
    println!(rt; "")?;
    Ok(s.state)
}

// A state as the desk prints it: kind, power, count.
pub(crate) fn state_told(rt: &impl Print, state: EventState) -> io::Result<()> {
    match state {
        EventState::Outside => print!(rt; " 0 0 0"),
        EventState::Responding { start, scored } => print!(rt; " 1 {} {scored}", start.0),
        EventState::Holding { start } => print!(rt; " 2 {} 0", start.0),
        EventState::Recovering { left } => print!(rt; " 3 0 {left}"),
    }
}

fn score_line(rt: &impl Print, scores: &[u8]) -> io::Result<()> {
    print!(rt; "scores")?;
    for score in scores {
        print!(rt; " {score}")?;
    }
    println!(rt; "")
}

// The rolling rates of the seconds from the fourth on.
fn rolling_line(rt: &impl Print, scores: &[u8]) -> io::Result<()> {
    print!(rt; "rolling")?;
    for window in scores.windows(4) {
        if let Some((newest, before)) = window.split_last() {
            print!(rt; " {}", rolling_rate(before, *newest))?;
        }
    }
    println!(rt; "")
}

// A second's rolling rate: the rate of an hour that scores 100 from the next second on.
fn rolling_rate(before: &[u8], score: u8) -> u8 {
    let mut scores = [100u8; limits::SECONDS];
    scores[0] = score;
    rate::hourly_rate(before, &scores).rate
}

// At 6 MW a second scores 60 outside, and 0 where an event judges it: 59,980 is reached in an event's second, tenth and
// eleventh second. The last event starts in the hour's last second.
pub(crate) fn ends(rt: &impl Print) -> io::Result<()> {
    println!(rt; "document 02, #103: where an event ends")?;
    steady(rt, 3_585, 3_586)?;
    steady(rt, 3_585, 3_594)?;
    steady(rt, 3_585, 3_595)?;
    steady(rt, 3_599, 3_600)?;
    below_100(rt)?;
    falls_again(rt)
}

fn steady(rt: &impl Print, first: usize, last: usize) -> io::Result<()> {
    let powers = [6_000i64; limits::SECONDS];
    let mut frequencies = [59_881i64; limits::SECONDS];
    event(&mut frequencies, first, last);
    print!(rt; "event {first} {last}")?;
    last_seconds(rt, "", &powers, &frequencies)
}

// An hour, and its last sixteen scores.
fn last_seconds(
    rt: &impl Print,
    label: &str,
    powers: &[i64],
    frequencies: &[i64],
) -> io::Result<()> {
    let mut scores = [7u8; limits::SECONDS];
    from_outside(rt, label, powers, frequencies, &mut scores)?;
    score_line(rt, &scores[3_584..])
}

// The end second is judged: with the three before it, it makes a window of 60.
fn below_100(rt: &impl Print) -> io::Result<()> {
    let mut powers = [10_000i64; limits::SECONDS];
    let mut frequencies = [59_881i64; limits::SECONDS];
    readings::stretch(&mut powers, 3_581, 3_591, 0);
    readings::stretch(&mut powers, 3_591, limits::SECONDS, 4_000);
    event(&mut frequencies, 3_580, 3_594);
    last_seconds(rt, "an end second of 60", &powers, &frequencies)
}

// The tenth second after an event starts another, which is judged by its own start power.
fn falls_again(rt: &impl Print) -> io::Result<()> {
    let mut powers = [6_000i64; limits::SECONDS];
    let mut frequencies = [59_881i64; limits::SECONDS];
    readings::put(&mut powers, 3_587, 13_000);
    event(&mut frequencies, 3_575, 3_577);
    event(&mut frequencies, 3_587, limits::SECONDS);
    last_seconds(
        rt,
        "a fall in the tenth second after",
        &powers,
        &frequencies,
    )
}

// An event over the hour's end. The first hour's scores end in 90, 0, 0, and the second's begin with 0.
pub(crate) fn in_a_row(rt: &impl Print) -> io::Result<()> {
    println!(rt; "two sReg hours, one after the other")?;
    let mut powers = [20_000i64; limits::SECONDS];
    readings::stretch(&mut powers, 3_590, 3_597, 10_000);
    readings::put(&mut powers, 3_597, 11_000);
    first(rt, &powers)
}

fn first(rt: &impl Print, powers: &[i64]) -> io::Result<()> {
    let mut frequencies = [59_881i64; limits::SECONDS];
    let mut scores = [7u8; limits::SECONDS];
    event(&mut frequencies, 3_580, limits::SECONDS);
    let state = from_outside(rt, "the first", powers, &frequencies, &mut scores)?;
    second(rt, &scores[3_597..], state)
}

// The event ends in the fifth second, at 50.
fn second(rt: &impl Print, earlier: &[u8], state: EventState) -> io::Result<()> {
    let mut powers = [10_000i64; limits::SECONDS];
    let mut frequencies = [59_979i64; limits::SECONDS];
    readings::stretch(&mut frequencies, 4, limits::SECONDS, 59_980);
    readings::put(&mut powers, 0, 20_000);
    readings::stretch(&mut powers, 4, 15, 15_000);
    handed(rt, &powers, &frequencies, earlier, state)
}

fn handed(
    rt: &impl Print,
    powers: &[i64],
    frequencies: &[i64],
    earlier: &[u8],
    state: EventState,
) -> io::Result<()> {
    let none = [0u8; 0];
    first_seconds(rt, "the second", powers, frequencies, earlier, state)?;
    first_seconds(
        rt,
        "the second, by itself",
        powers,
        frequencies,
        &none,
        EventState::Outside,
    )
}

// An hour, and its first sixteen scores.
fn first_seconds(
    rt: &impl Print,
    label: &str,
    powers: &[i64],
    frequencies: &[i64],
    earlier: &[u8],
    state: EventState,
) -> io::Result<()> {
    let mut scores = [7u8; limits::SECONDS];
    after(rt, label, powers, frequencies, earlier, state, &mut scores)?;
    score_line(rt, &scores[0..16])
}
