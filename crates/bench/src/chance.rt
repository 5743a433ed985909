// Numbers by chance (a linear congruential generator), and the check sum.
pub const MODULUS: u64 = 4_294_967_296;

pub(crate) fn next(x: u64) -> u64 {
    (x % MODULUS * 1_664_525 + 1_013_904_223) % MODULUS
}

// The sum with one number more; the order of the numbers counts.
pub(crate) fn mixed(sum: u64, number: u64) -> u64 {
    (sum % MODULUS * 31 + number % MODULUS) % MODULUS
}

// The sum with one signed number more.
pub(crate) fn with_number(sum: u64, number: i64) -> u64 {
    mixed(mixed(sum, u64::from(number < 0)), number.unsigned_abs())
}
