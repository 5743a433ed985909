// Entries and lines by chance, some of them damaged, and their check sum.
use crate::chance;
use frame::{Entry, kinds};
use units::{Dollars, Refusal};

// A post, a replace, a withdraw or, one time in sixteen, a kind that is none: in form but for those.
pub(crate) fn entry(x: u64) -> Entry {
    let k = x / 16_777_216 % 16;
    let dollars = if k < 12 { amount(x) } else { 0 };
    Entry {
        kind: kind(k),
        day: (x / 134_217_728 % 32) as u8,
        hour: (x / 65_536 % 256 * 25 / 256) as u8,
        amount: Dollars(dollars),
    }
}

// A line; an entry that the writer refuses leaves 24 zeros.
pub(crate) fn line(x: u64) -> [u8; 24] {
    let mut run = [b'0'; 24];
    let _ = frame::write_frame(entry(x), &mut run);
    damaged(run, x)
}

// The sum with what a line reads as.
pub(crate) fn with_reading(sum: u64, got: Result<Entry, Refusal>) -> u64 {
    match got {
        Ok(entry) => with_entry(sum, entry),
        Err(refusal) => chance::mixed(sum, u64::from(refusal.number())),
    }
}

// The sum with the writer's answer, the last digit of its line, and one that goes round.
pub(crate) fn with_line(sum: u64, refusal: u8, line: &[u8; 24], i: u64) -> u64 {
    let at = (i % 24) as usize;
    chance::mixed(
        chance::mixed(chance::mixed(sum, u64::from(refusal)), u64::from(line[at])),
        u64::from(line[23]),
    )
}

fn amount(x: u64) -> i64 {
    (x % 65_536 * 32_768) as i64 - 1_073_741_824
}

fn kind(k: u64) -> u8 {
    match k {
        0..=7 => kinds::POST,
        8..=11 => kinds::REPLACE,
        12..=14 => kinds::WITHDRAW,
        _ => kinds::EXCESS_FEE + 1,
    }
}

// Of thirty-two lines one has a byte that is no digit, one another sum, and one its kind and its day exchanged, which
// leaves the sum.
fn damaged(line: [u8; 24], x: u64) -> [u8; 24] {
    let chance = x / 4_096 % 32;
    let mut after = line;
    if chance == 0 {
        after[17] = b'g';
    }
    if chance == 1 {
        after[23] = b'0';
    }
    if chance == 2 {
        after[0] = line[2];
        after[1] = line[3];
        after[2] = line[0];
        after[3] = line[1];
    }
    after
}

fn with_entry(sum: u64, entry: Entry) -> u64 {
    let (day, hour) = (u64::from(entry.day), u64::from(entry.hour));
    let place = u64::from(entry.kind) * 65_536 + day * 256 + hour;
    chance::with_number(chance::mixed(sum, place), entry.amount.0)
}
