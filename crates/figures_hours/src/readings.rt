// Made-up runs, each by a small rule, and a check sum over a run of scores.
const MODULUS: u64 = 4_294_967_296;

// What a made-up run has at its places.
#[derive(Clone, Copy)]
pub(crate) enum Rule {
    Level(i64),
    // at even places and at odd ones
    Turns(i64, i64),
    // 601 frequencies from this one on; from 300 below the reference they cover the whole curve
    Waver(u32),
    // consumption in document 001's table 2
    Table2,
}

// The rule's values from a place on, up to another or the run's end.
pub(crate) fn fill(run: &mut [i64], from: usize, to: usize, rule: Rule) {
    for (i, place) in run.iter_mut().enumerate().take(to).skip(from) {
        *place = value_at(rule, i);
    }
}

// The same value from a place on, up to another or the run's end.
pub(crate) fn stretch(run: &mut [i64], from: usize, to: usize, value: i64) {
    fill(run, from, to, Rule::Level(value));
}

// Another value at one place.
pub(crate) fn put(run: &mut [i64], place: usize, value: i64) {
    if let Some(old) = run.get_mut(place) {
        *old = value;
    }
}

// The planned transfer of each second of an hour.
pub(crate) fn follow(run: &mut [i64], targets: &[i64]) {
    let _ = ramp::plan(targets, run);
}

pub(crate) fn score_sum(run: &[u8]) -> u64 {
    run.iter()
        .fold(0, |sum, score| mixed(sum, u64::from(*score)))
}

fn value_at(rule: Rule, i: usize) -> i64 {
    match rule {
        Rule::Level(value) => value,
        Rule::Turns(even, odd) => if i % 2 == 0 { even } else { odd },
        Rule::Waver(first) => (first as usize + i % 3_600 * 37 % 601) as i64,
        Rule::Table2 => consumed(i),
    }
}

// The event starts at 12 minutes 10 seconds, at 20 MW. The nine seconds after that one would score 0 if the event
// judged them, and the ten after its last second if they were outside.
fn consumed(second: usize) -> i64 {
    match second {
        731..=739 => 30_000,
        740 | 747 | 750 => 10_000,
        741 | 743 | 744 => 11_000,
        742 => 15_000,
        745 => 13_000,
        746 => 10_500,
        748 => 9_000,
        749 => 14_000,
        751..=760 => 0,
        _ => 20_000,
    }
}

// The sum with one number more; the order of the numbers counts.
fn mixed(sum: u64, number: u64) -> u64 {
    (sum % MODULUS * 31 + number % MODULUS) % MODULUS
}
