// The frame of a logger's pair: a line of 24 digits as the ledger's are, and the second and the bits that it holds.
#![tactic(auto)]

ghost use Rattle.std.specs.Prelude.{◌≡◌, [], ◌∷◌, ◌++◌, length};
ghost use Rattle.frame.specs.Numbers.{number_of};
ghost use Rattle.units.specs.Refusals.{result_by};
ghost use Rattle.frame.specs.Frame.{close_refusal, closed};
ghost use Rattle.pair_frame.specs.PairFrame.{sent_of, pair_body};

use units::Refusal;

const KIND: u8 = 0x10;

// What a line holds, the pair by its bits.
#[derive(Clone, Copy)]
pub struct Sent {
    pub second: u16,
    pub frequency: u32,
    pub power: u32,
}

// The second and the bits of a line, or 1, 11, 12 or 13.
#[tactic(auto, using(crate::proofs::PairFrames::reading))]
pub fn read_pair(line: &[u8]) -> Result<Sent, Refusal>
    ensures { result ≡ sent_of line.now }
{
    let bytes = frame::open_line(line)?;
    if bytes[0] != KIND {
        return Err(Refusal::BadKind);
    }
    Ok(Sent {
        second: two(bytes[1], bytes[2]),
        frequency: four(bytes[3], bytes[4], bytes[5], bytes[6]),
        power: four(bytes[7], bytes[8], bytes[9], bytes[10]),
    })
}

// Fills a lent run of 24 bytes with the line of a second and a pair's bits, without a line end; or answers 1 and leaves
// the run as it was.
pub fn write_pair(second: u16, frequency: u32, power: u32, line: &mut [u8]) -> Result<(), Refusal>
    ensures { (result ≡ result_by (close_refusal (length line.old)) tt) × (line.new ≡ closed (pair_body second frequency power) line.old) }
{
    frame::close_line(bytes_of(second, frequency, power), line)
}

// The number of two bytes. (By `from_be_bytes`, here and in `four`, the import of an hour took 1.17 times as long.)
fn two(a: u8, b: u8) -> u16
    ensures { result ≡ number_of (a ∷ b ∷ []) }
{
    u16::from(a) * 256 + u16::from(b)
}

// The number of four.
fn four(a: u8, b: u8, c: u8, d: u8) -> u32
    ensures { result ≡ number_of (a ∷ b ∷ c ∷ d ∷ []) }
{
    ((u32::from(a) * 256 + u32::from(b)) * 256 + u32::from(c)) * 256 + u32::from(d)
}

// Eleven bytes, and a zero where their sum goes.
fn bytes_of(second: u16, frequency: u32, power: u32) -> [u8; 12]
    ensures { result ≡ pair_body second frequency power ++ (0 ∷ []) }
{
    let [s0, s1] = second.to_be_bytes();
    let [f0, f1, f2, f3] = frequency.to_be_bytes();
    let [p0, p1, p2, p3] = power.to_be_bytes();
    [KIND, s0, s1, f0, f1, f2, f3, p0, p1, p2, p3, 0]
}
