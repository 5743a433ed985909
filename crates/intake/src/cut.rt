// Lines of an input that comes in chunks.
ghost use Rattle.std.specs.Prelude.{min, ◌≡◌};
ghost use Rattle.intake.specs.Inner.{empty_line, pushed, kept_in};

use crate::Line;

// A line with no byte yet.
#[tactic(auto, unfolding(crate::specs::Inner::empty_line))]
pub(crate) fn empty() -> Line
    ensures { result ≡ empty_line }
{
    Line {
        bytes: [0; 25],
        len: 0,
    }
}

// The line with more bytes.
pub(crate) fn keep(line: Line, more: &[u8]) -> Line
    ensures { result ≡ kept_in line more.now }
{
    let mut kept = line;
    for b in more {
        kept = push(kept, *b);
    }
    kept
}

// How many bytes a line of that length has kept.
pub(crate) fn held(len: usize) -> usize
    ensures { result ≡ min len 25 }
{
    len.min(25)
}

// The line with one byte more, or as it is where it has 25.
#[tactic(auto, unfolding(crate::specs::Inner::pushed))]
fn push(line: Line, b: u8) -> Line
    ensures { result ≡ pushed line b }
{
    let at = line.len;
    if 25 <= at {
        return line;
    }
    let mut next = line;
    next.bytes[at] = b;
    next.len = at + 1;
    next
}
