// The parts of a question's numbers, one after the other.
ghost use Rattle.std.specs.Prelude.{◌+◌, ◌≤◌, ◌≡◌};
ghost use Rattle.numbers.specs.Shapes.{list_at, end_fault, said};

use crate::Span;
use words::faults;

// The most entries of a list; a count that says more, or less than 0, says none.
const MOST_ENTRIES: i64 = 100;

// The list whose count stands at a place, its entries of so many numbers; of 0 numbers, no list.
#[tactic(auto, using(crate::proofs::Laws::said_few, crate::proofs::Laws::entries_few), unfolding(crate::specs::Shapes::list_at))]
pub(crate) fn list_at(numbers: &[i64], at: usize, width: u8) -> Span
    requires { at ≤ 100000 }
    ensures is { result ≡ list_at numbers.now at width }
    ensures most { result.end ≤ at + 25501 }
{
    if width == 0 {
        return Span {
            start: at,
            end: at,
            counted: true,
        };
    }
    let z = whole::at(numbers, at);
    let start = at + 1;
    let end = start + usize::from(width) * said(z);
    Span {
        start,
        end,
        counted: whole::within(z, 0, MOST_ENTRIES),
    }
}

// Whether as many numbers stand from a place on as a shape's end asks: so many, or groups of so many.
#[tactic(auto, unfolding(crate::specs::Shapes::end_fault))]
pub(crate) fn end_fault(numbers: &[i64], at: usize, tail: u16, group: u8) -> u8
    requires { at ≤ 110000 }
    ensures { result ≡ end_fault numbers.now at tail group }
{
    let Some(left) = numbers.len().checked_sub(at + usize::from(tail)) else {
        return faults::TOO_FEW;
    };
    if group == 0 {
        return whole::unless(left == 0, faults::TOO_MANY, 0);
    }
    whole::unless(left % usize::from(group) == 0, faults::TOO_FEW, 0)
}

// How many entries a count says that there are.
#[tactic(auto, using(whole::proofs::Signed::natural), unfolding(crate::specs::Shapes::said))]
fn said(z: i64) -> usize
    ensures { result ≡ said z }
{
    if whole::within(z, 0, MOST_ENTRIES) {
        z as usize
    } else {
        0
    }
}
