// The line that `desk` prints for a fault.
#![tactic(auto)]

ghost use Rattle.std.specs.Prelude.{◌≤◌, ◌≡◌, length};
ghost use Rattle.text.specs.Text.{put, place_after, with_text};
ghost use Rattle.fault_lines.specs.Text.{fault_words, fault_text};
ghost use Rattle.fault_lines.specs.Inner.{most_bytes};

use words::faults;

// Puts the line of a fault at the start of a run and answers the place after it; where the line does not fit, the run
// stays as it was, and the answer is 0.
#[tactic(auto, using(text::proofs::Pieces::begun_front))]
pub fn put_fault(fault: u8, line: u64, out: &mut [u8]) -> usize
    ensures place { result ≡ place_after out.old 0 (fault_text fault line) }
    ensures text { out.new ≡ with_text out.old 0 (fault_text fault line) }
{
    let mut bytes = [0u8; 64];
    let n = spell(fault, line, &mut bytes);
    text::put(out, 0, &bytes[..n])
}

// The line in a run that has room for any.
fn spell(fault: u8, line: u64, out: &mut [u8]) -> usize
    requires { most_bytes ≤ length out.old }
    ensures place { result ≡ length (fault_text fault line) }
    ensures text { out.new ≡ put out.old 0 (fault_text fault line) }
    ensures short { result ≤ most_bytes }
{
    let a = text::put(out, 0, b"line ");
    let b = text::put_decimal(out, a, line);
    text::put(out, b, words_of(fault))
}

// What is said of a fault after the number of its line.
#[tactic(auto, unfolding(crate::specs::Text::fault_words))]
fn words_of(fault: u8) -> &'static [u8]
    ensures { result.now ≡ fault_words fault }
{
    match fault {
        faults::NOT_QUESTION => b": 101 not a question\n",
        faults::TOO_LARGE => b": 102 a number too large for 64 bits\n",
        faults::TOO_FEW => b": 103 too few numbers\n",
        faults::TOO_MANY => b": 104 too many numbers\n",
        faults::NOT_NUMBER => b": 105 not a number\n",
        _ => b": no fault\n",
    }
}
