// Signed whole numbers, and the small pieces that every crate above is made of.
#![tactic(auto)]

ghost use Rattle.std.specs.Prelude.{◌≡◌, pos, nat_abs, get_or};
ghost use Rattle.std.specs.Int.{w64};
ghost use Rattle.std.proofs.Common.{SFits};
ghost use Rattle.whole.specs.Choice.{unless, or_else};
ghost use Rattle.whole.specs.Whole.{in_range, all_in_range, with_sign, half_up, round_up, nearest, away};
ghost use Rattle.whole.specs.Inner.{summed};

// What `sum` takes: so many numbers, each so large.
const MOST_TERMS: usize = 1_000_000;

const MOST_TERM: i64 = 1_000_000_000_000;

const LEAST_TERM: i64 = -MOST_TERM;

// The number k unless the test passed; then the rest.
pub fn unless(ok: bool, k: u8, rest: u8) -> u8
    ensures { result ≡ unless ok k rest }
{
    if ok { rest } else { k }
}

// The number k where it is a refusal; then the rest.
pub fn or_else(k: u8, rest: u8) -> u8
    ensures { result ≡ or_else k rest }
{
    if k == 0 { rest } else { k }
}

// The number at a place of a run, 0 past its end.
pub fn at(run: &[i64], place: usize) -> i64
    ensures { result ≡ get_or run.now place (pos 0) }
{
    run.get(place).copied().unwrap_or(0)
}

// Whether x lies from low to high.
#[tactic(auto, unfolding(crate::specs::Whole::in_range))]
pub fn within(x: i64, low: i64, high: i64) -> bool
    ensures { result ≡ in_range low high x }
{
    (low <= x) & (x <= high)
}

// Whether each number of a run lies from low to high. It goes on past one that does not, so that several are tested
// at a time.
pub fn all_within(run: &[i64], low: i64, high: i64) -> bool
    ensures { result ≡ all_in_range low high run.now }
{
    let mut all = true;
    for x in run {
        all &= within(*x, low, high);
    }
    all
}

// The size of x, its sign left out.
pub fn size(x: i64) -> u64
    ensures { result ≡ nat_abs x }
{
    x.unsigned_abs()
}

// The nearest whole number to n / d, a half going away from zero. The sign of d is left out.
pub fn nearest(n: i64, d: i64) -> i64
    ensures { result ≡ nearest n (nat_abs d) }
{
    with_sign(n, half_up(size(n), size(d)))
}

// n / d rounded away from zero. The sign of d is left out.
pub fn away(n: i64, d: i64) -> i64
    ensures { result ≡ away n (nat_abs d) }
{
    with_sign(n, round_up(size(n), size(d)))
}

// The sum of a run of at most 1,000,000 numbers from -10^12 to 10^12.
pub fn sum(run: &[i64]) -> Option<i64>
    ensures { result ≡ summed run.now }
{
    if MOST_TERMS < run.len() {
        return None;
    }
    let mut sum: i64 = 0;
    for x in run {
        if !within(*x, LEAST_TERM, MOST_TERM) {
            return None;
        }
        sum += *x;
    }
    Some(sum)
}

// m with the sign of x.
fn with_sign(x: i64, m: u64) -> i64
    requires { SFits w64 (with_sign x m) }
    ensures { result ≡ with_sign x m }
{
    if x < 0 {
        if m == 0 {
            return 0;
        }
        let v = (m - 1) as i64;
        return -1 - v;
    }
    m as i64
}

// m / d to the nearest, a half going up.
fn half_up(m: u64, d: u64) -> u64
    ensures { result ≡ half_up m d }
{
    if d == 0 {
        return 0;
    }
    let q = m / d;
    let r = m % d;
    if d - r <= r {
        return q + 1;
    }
    q
}

// m / d rounded up.
#[tactic(auto, using(crate::proofs::Rounding::up_zero), unfolding(crate::specs::Whole::round_up))]
fn round_up(m: u64, d: u64) -> u64
    ensures { result ≡ round_up m d }
{
    if d == 0 {
        return 0;
    }
    m.div_ceil(d)
}
