// A logger's pair of singles in whole millihertz and kilowatts, worked from the bits.
#![tactic(auto)]

ghost use Rattle.std.specs.Prelude.{◌<◌, ◌≤◌, ◌-◌, ◌*◌, ◌^◌, ◌≡◌, leb};
ghost use Rattle.whole.specs.Whole.{half_up};
ghost use Rattle.pair.specs.Single.{exponent_of, is_special, significand, signed_by, whole_of};
ghost use Rattle.pair.specs.Pair.{rounded_bits, rounded_pair, logged_bits};

use units::{Kilowatts, Millihertz, Refusal, limits};

// A second as the logger sends it: hertz and kilowatts.
#[derive(Clone, Copy)]
pub struct Pair {
    pub frequency: f32,
    pub power: f32,
}

// The same in whole numbers.
#[derive(Clone, Copy)]
pub struct Rounded {
    pub frequency: Millihertz,
    pub power: Kilowatts,
}

// A pair in whole millihertz and kilowatts, or 17 or 4. A NaN alone has no bits, so it is found by the single.
#[tactic(auto, using(crate::proofs::Pairs::converting), unfolding(crate::specs::Pair::rounded_pair))]
pub fn convert(pair: Pair) -> Result<Rounded, Refusal>
    ensures { result ≡ rounded_pair pair }
{
    let f = pair.frequency;
    let p = pair.power;
    if f.is_nan() | p.is_nan() {
        return Err(Refusal::NotFinite);
    }
    convert_bits(f.to_bits(), p.to_bits())
}

// The pair that bits stand for, or 17.
#[tactic(auto, using(crate::proofs::Pairs::standing), unfolding(crate::specs::Pair::logged_bits))]
pub fn from_bits(frequency: u32, power: u32) -> Result<Pair, Refusal>
    ensures { result ≡ logged_bits frequency power }
{
    if special(frequency) | special(power) {
        return Err(Refusal::NotFinite);
    }
    Ok(Pair {
        frequency: f32::from_bits(frequency),
        power: f32::from_bits(power),
    })
}

// The bits of a pair in whole millihertz and kilowatts, or 17 or 4.
#[tactic(auto, using(crate::proofs::Pairs::rounding))]
fn convert_bits(f: u32, p: u32) -> Result<Rounded, Refusal>
    ensures { result ≡ rounded_bits f p }
{
    if special(f) | special(p) {
        return Err(Refusal::NotFinite);
    }
    if far(f) | far(p) {
        return Err(Refusal::BadReading);
    }
    let frequency = whole_of(1_000, f);
    let power = whole_of(1, p);
    let known = whole::within(frequency, limits::LEAST_FREQUENCY, limits::MOST_FREQUENCY);
    let held = whole::within(power, -limits::POWER, limits::POWER);
    if !(known & held) {
        return Err(Refusal::BadReading);
    }
    Ok(Rounded {
        frequency: Millihertz(frequency),
        power: Kilowatts(power),
    })
}

// Whether the bits are those of a NaN or an infinity.
fn special(bits: u32) -> bool
    ensures { result ≡ is_special bits }
{
    exponent(bits) == 255
}

fn exponent(bits: u32) -> u32
    ensures { result ≡ exponent_of bits }
{
    bits % 0x8000_0000 / 0x80_0000
}

// Whether the size is 2 ^ 23 or more: far outside each range.
fn far(bits: u32) -> bool
    ensures { result ≡ leb 150 (exponent_of bits) }
{
    150 <= exponent(bits)
}

// The nearest whole number to k times the single. Below 2 ^ -39, an exponent of 88, it is 0.
fn whole_of(k: u64, bits: u32) -> i64
    requires { (exponent_of bits < 150) × (k ≤ 1000) }
    ensures { result ≡ whole_of k bits }
{
    let e = exponent(bits);
    if e < 88 {
        return 0;
    }
    signed_by(bits, half_up(significand(bits) * k, 150 - e))
}

// The fraction with its leading one. The single is that over 2 ^ (150 - exponent).
#[tactic(auto, using(crate::proofs::Singles::significand_is))]
fn significand(bits: u32) -> u64
    requires { 0 < exponent_of bits }
    ensures { result ≡ significand bits }
{
    0x80_0000 + u64::from(bits % 0x80_0000)
}

// n / 2 ^ places to the nearest, a half going up.
fn half_up(n: u64, places: u32) -> u64
    requires { (n ≤ 2 ^ 34) × ((1 ≤ places) × (places ≤ 62)) }
    ensures { result ≡ half_up n (2 ^ places) }
{
    (n + (1u64 << (places - 1))) >> places
}

// n with the sign of the bits.
fn signed_by(bits: u32, n: u64) -> i64
    requires { n ≤ 2 ^ 34 }
    ensures { result ≡ signed_by bits n }
{
    let size = n as i64;
    if 0x8000_0000 <= bits {
        return -size;
    }
    size
}
