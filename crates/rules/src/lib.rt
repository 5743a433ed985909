// The questions about one rule, each answered by a refusal and a few fields: the answer of the library that has the
// rule.
#![tactic(auto)]

ghost use Rattle.std.specs.Prelude.{◌≤◌, ◌≡◌, true, length};
ghost use Rattle.units.specs.Limits.{seconds_of_hour};
ghost use Rattle.bands.specs.Bands.{factor_answer};
ghost use Rattle.pair.specs.Pair.{rounded_bits};
ghost use Rattle.words.specs.Inner.{boxed};
ghost use Rattle.numbers.specs.Numbers.{column, scores_in};
ghost use Rattle.reached.specs.Reached.{hour_reached};
ghost use Rattle.rules.specs.Rules.{factor_in, kilowatts_reply, curve_reply, score_reply, rate_reply, bands_reply};
ghost use Rattle.rules.specs.Rules.{reached_reply, verdict_reply};
ghost use Rattle.rules.specs.Inner.{few};
ghost use Rattle.rules.specs.Rules.{factor_reply, charge_reply, fee_reply, quality_reply, energy_reply, loss_reply, pair_bits_reply, pair_reply, rule_reply};

use fees::Charged;
use pair::Rounded;
use units::{Dollars, Kilowatts, Megawatts, Millihertz, Refusal, limits, refusals};
use words::{Few, Rule};

// THE FAMILY: the answer to a question about one rule, by its single numbers, by its earlier scores and whether they
// are counted, and by the numbers after them; 1 where those are not as many as the rule takes.
pub fn answer(rule: Rule, head: [i64; 12], counted: bool, earlier: &[i64], tail: &[i64]) -> Few
    ensures { result ≡ boxed (rule_reply rule head counted earlier.now tail.now) }
{
    match rule {
        Rule::Kilowatts => kilowatts(head),
        Rule::Curve => curve(head),
        Rule::Score => score(head),
        Rule::Rate => rate(counted, earlier, tail),
        Rule::Reached => reached(head, counted, earlier, tail),
        Rule::Bands => bands(tail),
        Rule::Factor => factor(head, tail),
        Rule::Fee => fee(head),
        Rule::Quality => quality(head),
        Rule::Energy => energy(head, tail),
        Rule::Loss => loss(head),
        Rule::Pair => pair(head),
    }
}

#[tactic(auto, unfolding(crate::specs::Rules::kilowatts_reply))]
fn kilowatts(head: [i64; 12]) -> Few
    ensures { result ≡ boxed (kilowatts_reply head) }
{
    match units::to_kilowatts(Megawatts(head[0])) {
        Ok(power) => few(0, 1, power.0, 0, 0, 0),
        Err(refusal) => few(refusal.number(), 1, 0, 0, 0, 0),
    }
}

// An answer of at most four fields: the refusal's number, the fields, zeros after them.
fn few(refusal: u8, count: usize, a: i64, b: i64, c: i64, d: i64) -> Few
    ensures { result ≡ few refusal count a b c d }
{
    Few {
        refusal,
        count,
        values: [a, b, c, d, 0, 0, 0, 0, 0, 0, 0, 0],
    }
}

#[tactic(auto, unfolding(crate::specs::Rules::curve_reply))]
fn curve(head: [i64; 12]) -> Few
    ensures { result ≡ boxed (curve_reply head) }
{
    match curve::curve(Millihertz(head[0]), Millihertz(head[1])) {
        Ok(bounds) => few(0, 2, bounds.upper, bounds.lower, 0, 0),
        Err(refusal) => few(refusal.number(), 2, 0, 0, 0, 0),
    }
}

fn score(head: [i64; 12]) -> Few
    ensures { result ≡ boxed (score_reply head) }
{
    let scored = score::second_score(
        Kilowatts(head[0]),
        Kilowatts(head[1]),
        Kilowatts(head[2]),
        Millihertz(head[3]),
        Millihertz(head[4]),
    );
    few(scored.refusal, 1, scored.score as i64, 0, 0, 0)
}

fn rate(counted: bool, earlier: &[i64], tail: &[i64]) -> Few
    ensures { result ≡ boxed (rate_reply counted earlier.now tail.now) }
{
    if !(counted & (tail.len() == limits::SECONDS)) {
        return few(refusals::WRONG_LENGTH, 1, 0, 0, 0, 0);
    }
    rated(earlier, tail)
}

// The rate of 3,600 scores, after the earlier ones.
fn rated(earlier: &[i64], tail: &[i64]) -> Few
    requires { length tail.now ≡ seconds_of_hour }
    ensures { result ≡ boxed (rate_reply true earlier.now tail.now) }
{
    let mut scores = [0u8; limits::SECONDS];
    numbers::fill_bytes(tail, &mut scores);
    let before = numbers::first_four(earlier);
    let n = before.count;
    let first = before.scores;
    let rated = rate::hourly_rate(&first[..n], &scores);
    few(rated.refusal, 1, rated.rate as i64, 0, 0, 0)
}

fn reached(head: [i64; 12], counted: bool, earlier: &[i64], tail: &[i64]) -> Few
    ensures { result ≡ boxed (reached_reply head counted earlier.now tail.now) }
{
    if !(counted & (tail.len() == limits::SECONDS)) {
        return few(refusals::WRONG_LENGTH, 4, 0, 0, 0, 0);
    }
    verdict(numbers::byte_of(head[0]), earlier, tail)
}

// Whether 3,600 scores, after the earlier ones, reached a threshold.
fn verdict(threshold: u8, earlier: &[i64], tail: &[i64]) -> Few
    requires { length tail.now ≡ seconds_of_hour }
    ensures { result ≡ boxed (verdict_reply (hour_reached (scores_in earlier.now) (scores_in tail.now) threshold)) }
{
    let mut scores = [0u8; limits::SECONDS];
    numbers::fill_bytes(tail, &mut scores);
    let before = numbers::first_four(earlier);
    let n = before.count;
    let first = before.scores;
    let verdict = reached::reached(&first[..n], &scores, threshold);
    let reached = verdict.reached as i64;
    let second = verdict.second as i64;
    let judged = verdict.judged as i64;
    let read = verdict.read as i64;
    few(verdict.refusal, 4, reached, second, judged, read)
}

fn bands(tail: &[i64]) -> Few
    ensures { result ≡ boxed (bands_reply tail.now) }
{
    match looked_up(tail, 0) {
        Ok(_) => few(0, 0, 0, 0, 0, 0),
        Err(refusal) => few(refusal.number(), 0, 0, 0, 0, 0),
    }
}

// The same by all pairs that there are; a number that has no other is refused with 1, and more than 16 pairs with 5,
// whatever they say.
fn looked_up(numbers: &[i64], rate: u8) -> Result<i64, Refusal>
    ensures { result ≡ factor_in numbers.now rate }
{
    let n = numbers.len() / 2;
    if numbers.len() % 2 != 0 {
        return Err(Refusal::WrongLength);
    }
    if 100 < n {
        return Err(Refusal::BadBands);
    }
    found(numbers, n, rate)
}

// The factor of a rate by n pairs.
fn found(numbers: &[i64], n: usize, rate: u8) -> Result<i64, Refusal>
    requires { n ≤ 100 }
    ensures { result ≡ factor_answer (column numbers.now 0 n) (column numbers.now 1 n) rate }
{
    let mut thresholds = [0i64; 100];
    let mut factors = [0i64; 100];
    numbers::column(numbers, false, &mut thresholds);
    numbers::column(numbers, true, &mut factors);
    bands::factor(&thresholds[..n], &factors[..n], rate)
}

#[tactic(auto, unfolding(crate::specs::Rules::factor_reply))]
fn factor(head: [i64; 12], tail: &[i64]) -> Few
    ensures { result ≡ boxed (factor_reply head tail.now) }
{
    match looked_up(tail, numbers::byte_of(head[0])) {
        Ok(factor) => few(0, 1, factor, 0, 0, 0),
        Err(refusal) => few(refusal.number(), 1, 0, 0, 0, 0),
    }
}

fn fee(head: [i64; 12]) -> Few
    ensures { result ≡ boxed (fee_reply head) }
{
    charge(fees::fee(head[0], Kilowatts(head[1])))
}

// What a fee's answer prints.
fn charge(charged: Charged) -> Few
    ensures { result ≡ boxed (charge_reply charged) }
{
    let dollars = charged.dollars;
    few(charged.refusal, 1, dollars.0, 0, 0, 0)
}

fn quality(head: [i64; 12]) -> Few
    ensures { result ≡ boxed (quality_reply head) }
{
    charge(fees::quality_part(Dollars(head[0]), Dollars(head[1]), head[2]))
}

fn energy(head: [i64; 12], tail: &[i64]) -> Few
    ensures { result ≡ boxed (energy_reply head tail.now) }
{
    let discharge = head[0];
    let charging = head[1];
    charge(fees::energy_fee(tail, &head[2..6], discharge, charging))
}

#[tactic(auto, unfolding(crate::specs::Rules::loss_reply))]
fn loss(head: [i64; 12]) -> Few
    ensures { result ≡ boxed (loss_reply head) }
{
    match loss::loss_fee(head[0], head[1], head[2], head[3]) {
        Ok(loss) => few(0, 3, loss.basic.0, loss.excess.0, loss.total.0, 0),
        Err(refusal) => few(refusal.number(), 3, 0, 0, 0, 0),
    }
}

// The bits of a frequency and of a power. A number that is no pattern of 32 bits is no single.
fn pair(head: [i64; 12]) -> Few
    ensures { result ≡ boxed (pair_reply head) }
{
    let frequency = head[0];
    let power = head[1];
    let known = whole::within(frequency, 0, limits::PATTERN);
    if !(known & whole::within(power, 0, limits::PATTERN)) {
        return few(refusals::NOT_FINITE, 2, 0, 0, 0, 0);
    }
    converted(frequency as u32, power as u32)
}

fn converted(frequency: u32, power: u32) -> Few
    ensures { result ≡ boxed (pair_bits_reply frequency power) }
{
    match rounded(frequency, power) {
        Ok(pair) => few(0, 2, pair.frequency.0, pair.power.0, 0, 0),
        Err(refusal) => few(refusal.number(), 2, 0, 0, 0, 0),
    }
}

#[tactic(auto, using(pair::proofs::Pairs::by_bits))]
fn rounded(frequency: u32, power: u32) -> Result<Rounded, Refusal>
    ensures { result ≡ rounded_bits frequency power }
{
    pair::convert(pair::from_bits(frequency, power)?)
}
