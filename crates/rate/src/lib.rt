// An hour's rate by its scores, and by the last three of the hour before.
#![tactic(auto)]

ghost use Rattle.std.specs.Prelude.{◌≡◌, min, max, get_or};
ghost use Rattle.rate.specs.Rolling.{earlier_fit, are_scores, hourly_rate, no_rate};
ghost use Rattle.rate.specs.Inner.{rate_after, earlier_refusal};

use units::{limits, refusals};

// An hour's rate, or its refusal with 0.
#[derive(Clone, Copy)]
pub struct Rated {
    pub refusal: u8,
    pub rate: u8,
}

// The hourly rate of 3,600 scores: the smallest of their rolling rates. The first three look back into the earlier
// scores: the last three of the hour before, oldest first, or none.
#[tactic(auto, using(crate::proofs::Rates::before_refused, crate::proofs::Rates::before_fine, crate::proofs::Rates::read_back, crate::proofs::Rates::rate_after_is))]
pub fn hourly_rate(earlier: &[u8], scores: &[u8]) -> Rated
    ensures { result ≡ hourly_rate earlier.now scores.now }
{
    let number = earlier_refusal(earlier, scores.len());
    if number != 0 {
        return no_rate(number);
    }
    rate_after(
        earlier_at(earlier, 2),
        earlier_at(earlier, 1),
        earlier_at(earlier, 0),
        scores,
    )
}

// Whether an hour takes so many earlier scores: none, or three.
pub fn earlier_fits(count: usize) -> bool
    ensures { result ≡ earlier_fit count }
{
    (count == 0) | (count == limits::EARLIER)
}

// Whether each is a score. It goes on past one that is none, so that several are tested at a time.
pub fn are_scores(scores: &[u8]) -> bool
    ensures { result ≡ are_scores scores.now }
{
    let mut all = true;
    for score in scores {
        all &= *score <= limits::SCORE;
    }
    all
}

// 1, 4: all but the test of the hour's own scores, which the pass over them makes.
#[tactic(auto, unfolding(crate::specs::Inner::earlier_refusal))]
fn earlier_refusal(earlier: &[u8], seconds: usize) -> u8
    ensures { result ≡ earlier_refusal earlier.now seconds }
{
    let scores = whole::unless(are_scores(earlier), refusals::BAD_READING, 0);
    let lengths = (seconds == limits::SECONDS) & earlier_fits(earlier.len());
    whole::unless(lengths, refusals::WRONG_LENGTH, scores)
}

// The earlier score at a place, and 0 where there is none.
fn earlier_at(earlier: &[u8], place: usize) -> u8
    ensures { result ≡ get_or earlier.now place 0 }
{
    earlier.get(place).copied().unwrap_or(0)
}

fn no_rate(number: u8) -> Rated
    ensures { result ≡ no_rate number }
{
    Rated {
        refusal: number,
        rate: 0,
    }
}

// One pass, after the three scores before, newest first. It carries the last three scores, the smallest rolling rate so
// far, and whether every score so far is one.
fn rate_after(last: u8, second: u8, third: u8, scores: &[u8]) -> Rated
    ensures { result ≡ rate_after last second third scores.now }
{
    let mut all = true;
    let mut low = limits::SCORE;
    let (mut a, mut b, mut c) = (last, second, third);
    for x in scores {
        all &= *x <= limits::SCORE;
        low = low.min((*x).max(a.max(b.max(c))));
        (a, b, c) = (*x, a, b);
    }
    if all {
        Rated {
            refusal: 0,
            rate: low,
        }
    } else {
        no_rate(refusals::BAD_READING)
    }
}
