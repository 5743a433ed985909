// The calls, by chance or in order, some of them refused.
use crate::chance;

// A call: a post (0 to 2), a replace (3, 4) or a withdraw (5 to 7), on a day of 0 to 31 and an hour of 0 to 24, with
// an amount that now and then is past its limits.
#[derive(Clone, Copy)]
pub struct Drawn {
    pub kind: u8,
    pub day: u8,
    pub hour: u8,
    pub amount: i64,
}

pub(crate) fn by_chance(x: u64) -> Drawn {
    Drawn {
        kind: (x / 16_777_216 % 8) as u8,
        day: (x / 134_217_728 % 32) as u8,
        hour: (x / 65_536 % 256 * 25 / 256) as u8,
        amount: (x % 65_536 * 32_768) as i64 - 1_073_741_824,
    }
}

// The calls in order: 16 hours of each day are posted, posted again, replaced and withdrawn. Shifts and masks find a
// call, so that a turn of the loop is little else than the call.
pub(crate) fn in_order(i: u64) -> Drawn {
    Drawn {
        kind: (i / 512 % 4 * 2) as u8,
        day: (i / 16 % 32) as u8,
        hour: (i % 16) as u8,
        amount: (i % 65_536) as i64,
    }
}

// The sum with every place's amount.
pub(crate) fn with_amounts(sum: u64, amounts: &[i64]) -> u64 {
    amounts
        .iter()
        .fold(sum, |s, amount| chance::with_number(s, *amount))
}
