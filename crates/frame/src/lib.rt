// Frames: a line of 24 digits, and the entry that it holds.
#![tactic(auto)]

ghost use Rattle.std.specs.Prelude.{◌≡◌, length};
ghost use Rattle.units.specs.Refusals.{result_by};
ghost use Rattle.frame.specs.Frame.{line_digits, checked, opened_of, close_refusal, closed, in_form, entry_of, reading_of, body_of, line_of, write_refusal, written};

use units::{Dollars, Refusal};

// The digits of a line.
const LINE: usize = 24;

mod digit;
pub mod kinds;
mod number;

// What a frame says. Fields that its kind does not use are zero.
#[derive(Clone, Copy)]
pub struct Entry {
    pub kind: u8,
    pub day: u8,
    pub hour: u8,
    pub amount: Dollars,
}

// The twelve bytes of any line of 24 digits, or 1, 11 or 12.
#[tactic(auto, using(crate::proofs::Frames::opening))]
pub fn open_line(line: &[u8]) -> Result<[u8; 12], Refusal>
    ensures { result ≡ opened_of line.now }
{
    if line.len() != LINE {
        return Err(Refusal::WrongLength);
    }
    let mut bytes = [0u8; 12];
    if !digit::decode(line, &mut bytes) {
        return Err(Refusal::BadDigit);
    }
    if !checked(&bytes) {
        return Err(Refusal::BadSum);
    }
    Ok(bytes)
}

// Fills a lent run of 24 bytes with the line of the first eleven of twelve bytes and their sum; or answers 1 and leaves
// the run as it was.
pub fn close_line(bytes: [u8; 12], line: &mut [u8]) -> Result<(), Refusal>
    ensures { (result ≡ result_by (close_refusal (length line.old)) tt) × (line.new ≡ closed bytes line.old) }
{
    if line.len() != LINE {
        return Err(Refusal::WrongLength);
    }
    let mut summed = bytes;
    summed[11] = number::sum(&bytes[..11]);
    digit::encode(&summed, line);
    Ok(())
}

// The entry of a line, or 1, 11, 12 or 13.
#[tactic(auto, using(crate::proofs::Frames::reading))]
pub fn read_frame(line: &[u8]) -> Result<Entry, Refusal>
    ensures { result ≡ reading_of line.now }
{
    let bytes = open_line(line)?;
    let entry = entry_of(&bytes);
    if !in_form(entry) {
        return Err(Refusal::BadKind);
    }
    Ok(entry)
}

// Fills a lent run of 24 bytes with the entry's line, without a line end; or answers 1 or 13 and leaves the run as it
// was.
#[tactic(auto, using(crate::proofs::Frames::writing))]
pub fn write_frame(entry: Entry, line: &mut [u8]) -> Result<(), Refusal>
    ensures { (result ≡ result_by (write_refusal entry (length line.old)) tt) × (line.new ≡ written entry line.old) }
{
    if line.len() != LINE {
        return Err(Refusal::WrongLength);
    }
    if !in_form(entry) {
        return Err(Refusal::BadKind);
    }
    put_line(entry, line);
    Ok(())
}

// Whether the last of twelve bytes is the sum of the others.
#[tactic(auto, using(crate::proofs::Frames::eleven), unfolding(crate::specs::Frame::checked))]
fn checked(bytes: &[u8]) -> bool
    requires { length bytes.now ≡ 12 }
    ensures { result ≡ checked bytes.now }
{
    number::sum(&bytes[..11]) == bytes[11]
}

// The entry of twelve bytes.
#[tactic(auto, using(crate::proofs::Numbers::eight_read), unfolding(crate::specs::Frame::entry_of))]
fn entry_of(bytes: &[u8]) -> Entry
    requires { length bytes.now ≡ 12 }
    ensures { result ≡ entry_of bytes.now }
{
    let mut amount = [0u8; 8];
    amount.copy_from_slice(&bytes[3..11]);
    Entry {
        kind: bytes[0],
        day: bytes[1],
        hour: bytes[2],
        amount: Dollars(i64::from_be_bytes(amount)),
    }
}

// Whether the kind is known and each field that it does not use is zero.
#[tactic(auto, unfolding(crate::specs::Frame::in_form))]
fn in_form(entry: Entry) -> bool
    ensures { result ≡ in_form entry }
{
    match entry.kind {
        kinds::POST | kinds::REPLACE => true,
        kinds::WITHDRAW => entry.amount.0 == 0,
        kinds::OPEN => (entry.hour == 0) & (entry.amount.0 == 0),
        kinds::BASIC_FEE | kinds::EXCESS_FEE => (entry.day == 0) & (entry.hour == 0),
        kinds::CLOSE => (entry.day == 0) & (entry.hour == 0) & (entry.amount.0 == 0),
        _ => false,
    }
}

// The line of an entry.
#[tactic(auto, using(crate::proofs::Frames::close_entry))]
fn put_line(entry: Entry, line: &mut [u8])
    requires { length line.old ≡ line_digits }
    ensures { line.new ≡ line_of entry }
{
    let mut bytes = [0u8; 12];
    put_body(entry, &mut bytes[..11]);
    let _ = close_line(bytes, line);
}

// The first eleven bytes of an entry.
#[tactic(auto, using(crate::proofs::Frames::put_three, crate::proofs::Numbers::eight_put), unfolding(crate::specs::Frame::body_of))]
fn put_body(entry: Entry, body: &mut [u8])
    requires { length body.old ≡ 11 }
    ensures { body.new ≡ body_of entry }
{
    body[0] = entry.kind;
    body[1] = entry.day;
    body[2] = entry.hour;
    body[3..].copy_from_slice(&entry.amount.0.to_be_bytes());
}
