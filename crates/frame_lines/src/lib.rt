// The lines that `desk` prints for a frame, or for two, and for a logger's.
#![tactic(auto)]

ghost use Rattle.std.specs.Prelude.{◌≡◌, ◌++◌};
ghost use Rattle.text.specs.Text.{end_of_line, place_after, with_text};
ghost use Rattle.pair_frame.specs.PairFrame.{pair_line};
ghost use Rattle.frame_lines.specs.Text.{alone_text, frame_text, pair_text};
ghost use Rattle.frame_lines.specs.Inner.{lined_of, one_text, two_text};

use frame::Entry;
use frames::Framed;
use units::{limits, refusals};

// A frame's line with its end; where the writer refuses it, its number and line ends.
#[derive(Drop)]
struct Lined {
    refusal: u8,
    bytes: [u8; 25],
}

// Puts the lines of a question's frames at the start of a run, or the number of a refusal alone, and answers the place
// after them; where they do not fit, the run stays as it was, and the answer is 0.
pub fn put_frames(framed: Framed, out: &mut [u8]) -> usize
    ensures place { result ≡ place_after out.old 0 (frame_text framed) }
    ensures text { out.new ≡ with_text out.old 0 (frame_text framed) }
{
    let entry = framed.entry;
    let first = lined_of(entry);
    let k = whole::or_else(framed.refusal, first.refusal);
    let bytes = first.bytes;
    if framed.paired {
        let second = framed.second;
        return put_two(k, bytes, lined_of(second), out);
    }
    put_one(k, bytes, out)
}

// Puts the line of a logger's frame at the start of a run, or 13 alone where a number does not fit its bytes, and
// answers the place after it; where it does not fit, the run stays as it was, and the answer is 0.
pub fn put_pair(second: i64, frequency: i64, power: i64, out: &mut [u8]) -> usize
    ensures place { result ≡ place_after out.old 0 (pair_text second frequency power) }
    ensures text { out.new ≡ with_text out.old 0 (pair_text second frequency power) }
{
    let patterns = whole::within(frequency, 0, limits::PATTERN)
        & whole::within(power, 0, limits::PATTERN);
    if !(whole::within(second, 0, limits::SECOND) & patterns) {
        return put_alone(refusals::BAD_KIND, out);
    }
    put_bits(second as u16, frequency as u32, power as u32, out)
}

// The line of a second and a pair's bits.
fn put_bits(second: u16, frequency: u32, power: u32, out: &mut [u8]) -> usize
    ensures place { result ≡ place_after out.old 0 (pair_line second frequency power ++ end_of_line) }
    ensures text { out.new ≡ with_text out.old 0 (pair_line second frequency power ++ end_of_line) }
{
    let mut bytes = [b'\n'; 25];
    let _ = pair_frame::write_pair(second, frequency, power, &mut bytes[..24]);
    text::put(out, 0, &bytes)
}

// An entry's line with its end.
#[tactic(auto, using(frame::proofs::Frames::writes), unfolding(crate::specs::Inner::lined_of))]
fn lined_of(entry: Entry) -> Lined
    ensures { result ≡ lined_of entry }
{
    let mut bytes = [b'\n'; 25];
    let refusal = match frame::write_frame(entry, &mut bytes[..24]) {
        Ok(()) => 0,
        Err(refusal) => refusal.number(),
    };
    Lined { refusal, bytes }
}

// One line, or the number k alone where it refuses.
fn put_one(k: u8, bytes: [u8; 25], out: &mut [u8]) -> usize
    ensures place { result ≡ place_after out.old 0 (one_text k bytes) }
    ensures text { out.new ≡ with_text out.old 0 (one_text k bytes) }
{
    if k == 0 {
        return text::put(out, 0, &bytes);
    }
    put_alone(k, out)
}

// The same with a second line, whose own refusal comes after k.
fn put_two(k: u8, bytes: [u8; 25], second: Lined, out: &mut [u8]) -> usize
    ensures place { result ≡ place_after out.old 0 (two_text k bytes second) }
    ensures text { out.new ≡ with_text out.old 0 (two_text k bytes second) }
{
    let n = whole::or_else(k, second.refusal);
    if n == 0 {
        let rest = second.bytes;
        return put_both(bytes, rest, out);
    }
    put_alone(n, out)
}

// Both lines at once, so that none is put where the other does not fit.
fn put_both(bytes: [u8; 25], rest: [u8; 25], out: &mut [u8]) -> usize
    ensures place { result ≡ place_after out.old 0 (bytes ++ rest) }
    ensures text { out.new ≡ with_text out.old 0 (bytes ++ rest) }
{
    let mut lines = [0u8; 50];
    let a = text::put(&mut lines, 0, &bytes);
    let b = text::put(&mut lines, a, &rest);
    text::put(out, 0, &lines[..b])
}

// A refusal's number alone.
fn put_alone(k: u8, out: &mut [u8]) -> usize
    ensures place { result ≡ place_after out.old 0 (alone_text k) }
    ensures text { out.new ≡ with_text out.old 0 (alone_text k) }
{
    let mut line = [0u8; 4];
    let a = text::put_decimal(&mut line, 0, k as u64);
    let b = text::put(&mut line, a, b"\n");
    text::put(out, 0, &line[..b])
}
