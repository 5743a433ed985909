// Did an hour reach a threshold? The first second whose whole window stays below it, and what is judged and read to
// find it.
#![tactic(auto)]

ghost use Rattle.std.specs.Prelude.{◌≡◌, ◌++◌, ◌+◌, ◌-◌, ◌≤◌, ◌<◌, min, length, get_or};
ghost use Rattle.units.specs.Limits.{seconds_of_hour};
ghost use Rattle.reached.specs.Reached.{verdict_refusal, verdict_of, no_verdict, hour_reached};

use units::{limits, refusals};

// Whether the hour reached the threshold; the first second whose window stays below it, 0 where there is none; how many
// seconds were judged, and how many scores read. Or the refusal, with no and zeros.
#[derive(Clone, Copy)]
pub struct Verdict {
    pub refusal: u8,
    pub reached: bool,
    pub second: usize,
    pub judged: usize,
    pub read: usize,
}

// 3,600 scores, after the last three of the hour before, oldest first, or none.
#[tactic(auto, using(crate::proofs::Answers::threshold_fit, crate::proofs::Answers::hour_verdict, crate::proofs::Answers::hour_no_verdict))]
pub fn reached(earlier: &[u8], scores: &[u8], threshold: u8) -> Verdict
    ensures { result ≡ hour_reached earlier.now scores.now threshold }
{
    let number = refusal(earlier, scores, threshold);
    if number != 0 {
        return no_verdict(number);
    }
    first_below(earlier, scores, threshold)
}

// 1, 4, 5.
#[tactic(auto, unfolding(crate::specs::Reached::verdict_refusal))]
fn refusal(earlier: &[u8], scores: &[u8], threshold: u8) -> u8
    ensures { result ≡ verdict_refusal earlier.now scores.now threshold }
{
    let limit = whole::unless(threshold <= limits::SCORE, refusals::BAD_BANDS, 0);
    let all = rate::are_scores(earlier) & rate::are_scores(scores);
    let readings = whole::unless(all, refusals::BAD_READING, limit);
    let lengths = (scores.len() == limits::SECONDS) & rate::earlier_fits(earlier.len());
    whole::unless(lengths, refusals::WRONG_LENGTH, readings)
}

fn no_verdict(number: u8) -> Verdict
    ensures { result ≡ no_verdict number }
{
    Verdict {
        refusal: number,
        reached: false,
        second: 0,
        judged: 0,
        read: 0,
    }
}

// Second by second, each window from its newest score back. A score at or above the threshold ends its window, and the
// next second is judged; a window read to its end stays below, its second is named, and the hour is left.
fn first_below(earlier: &[u8], scores: &[u8], threshold: u8) -> Verdict
    requires { length scores.now ≡ seconds_of_hour }
    ensures { result ≡ verdict_of earlier.now scores.now threshold }
{
    let mut read = 0;
    'hour: {
        'seconds: for i in 0..scores.len() {
            let width = width(earlier.len() + i);
            for k in 0..width {
                let score = score_back(earlier, scores, i, k);
                read += 1;
                if threshold <= score {
                    continue 'seconds;
                }
            }
            let second = i + 1;
            break 'hour Verdict {
                refusal: 0,
                reached: false,
                second,
                judged: second,
                read,
            };
        }
        Verdict {
            refusal: 0,
            reached: true,
            second: 0,
            judged: scores.len(),
            read,
        }
    }
}

// How many scores a window has, by how many there are before its newest.
fn width(before: usize) -> usize
    ensures { result ≡ min 4 (before + 1) }
{
    if before < limits::EARLIER {
        return before + 1;
    }
    4
}

// The score k seconds before place i of the hour: one of the hour's own, or an earlier one.
fn score_back(earlier: &[u8], scores: &[u8], i: usize, k: usize) -> u8
    requires { (i < length scores.now) × (k ≤ length earlier.now + i) }
    ensures { result ≡ get_or (earlier.now ++ scores.now) (length earlier.now + i - k) 0 }
{
    if k <= i {
        return scores[i - k];
    }
    earlier[earlier.len() + i - k]
}
