// Document 01, "Numbers that are turned away". specs/Limits.antt has each limit with the paper's words.
pub const CAPACITY: i64 = 100_000;

pub const POWER: i64 = 200_000;

pub const LEAST_FREQUENCY: i64 = 55_000;

pub const MOST_FREQUENCY: i64 = 65_000;

pub const NOMINAL: i64 = 60_000;

pub const LEAST_REFERENCE: i64 = 59_500;

pub const MOST_REFERENCE: i64 = 60_500;

pub const TRANSFER: i64 = 100_000;

pub const AWARD: i64 = 100;

pub const PATTERN: i64 = 4_294_967_295;

pub const SECOND: i64 = 65_535;

pub const SCORE: u8 = 100;

pub const EARLIER: usize = 3;

pub const LEAST_FACTOR: i64 = -240;

pub const MOST_FACTOR: i64 = 10;

pub const BANDS: usize = 16;

pub const PRICE: i64 = 10_000_000;

pub const FEE: i64 = 10_000_000;

pub const AMOUNT: i64 = 1_000_000_000;

pub const LOSS_FEE: i64 = 100_000_000_000;

pub const ENERGY: i64 = 100_000_000;

pub const ENERGY_PAID: i64 = ENERGY / 1_000 * (PRICE / 100);

pub const VOLTAGE: i64 = 1_000_000;

pub const COST: i64 = 1_000_000;

pub const SECONDS: usize = 3_600;

pub const QUARTER: usize = 900;

pub const RAMP: usize = 300;

pub const LEAST_DAYS: u8 = 28;

pub const MOST_DAYS: u8 = 31;

pub const HOURS: usize = 24;

pub const PLACES: usize = MOST_DAYS as usize * HOURS;
