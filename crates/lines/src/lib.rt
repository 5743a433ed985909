// Lines of a run of bytes, as `ledger` and `import` cut them.
#![tactic(auto)]

ghost use Rattle.std.specs.Prelude.{◌+◌, ◌≤◌, ◌≡◌, true, length, take, drop, position, ◌==◌};
ghost use Rattle.lines.specs.Lines.{lines_of, before_end};
ghost use Rattle.lines.specs.Inner.{ends_of, is_begun, no_end};

// How many bytes are counted at a time: a byte holds as many.
const RUN: usize = 255;

// How many bytes without a line end are passed at once: a frame's digits.
const BLOCK: usize = 24;

// How many lines there are. The ends are counted run by run, in a byte each, so that several are counted at a time.
#[tactic(auto, using(crate::proofs::Lines::by_runs))]
pub fn count(bytes: &[u8]) -> usize
    ensures { result ≡ length (lines_of bytes.now) }
{
    let mut lines = 0;
    for run in bytes.chunks(RUN) {
        lines += ends_in(run);
    }
    if is_begun(bytes) { lines + 1 } else { lines }
}

// The place of the first line end from a place on, or the run's length; past it the place itself.
#[tactic(auto, using(crate::proofs::Lines::past))]
pub fn line_end(bytes: &[u8], from: usize) -> usize
    ensures { result ≡ from + length (before_end (drop from bytes.now)) }
{
    match bytes.get(from..) {
        Some(rest) => from + end_of(rest),
        None => from,
    }
}

// How many line ends there are, in a byte.
#[tactic(auto, using(crate::proofs::Lines::counting))]
fn ends_in(bytes: &[u8]) -> usize
    requires { length bytes.now ≤ 255 }
    ensures { result ≡ ends_of bytes.now }
{
    let mut ends = 0u8;
    for b in bytes {
        ends += u8::from(*b == b'\n');
    }
    usize::from(ends)
}

// Whether a line is begun at the end.
fn is_begun(bytes: &[u8]) -> bool
    ensures { result ≡ is_begun bytes.now }
{
    bytes.last().is_some_and(|b| *b != b'\n')
}

// The place of the first line end, or the length.
fn end_of(bytes: &[u8]) -> usize
    ensures { result ≡ length (before_end bytes.now) }
{
    let passed = passed(bytes);
    let rest = &bytes[passed..];
    passed + first_end(rest).unwrap_or(rest.len())
}

// How many bytes are passed at once: a block that has no line end.
#[tactic(auto, using(crate::proofs::Lines::before_past))]
fn passed(bytes: &[u8]) -> usize
    ensures within { result ≤ length bytes.now }
    ensures end { length (before_end bytes.now) ≡ result + length (before_end (drop result bytes.now)) }
{
    if bytes.len() >= BLOCK && no_end(&bytes[..BLOCK]) {
        return BLOCK;
    }
    0
}

// Whether no byte is a line end. It goes on past one that is, so that several are tested at a time.
#[tactic(auto, using(crate::proofs::Lines::testing))]
fn no_end(bytes: &[u8]) -> bool
    ensures { result ≡ no_end bytes.now }
{
    let mut none = true;
    for b in bytes {
        none &= *b != b'\n';
    }
    none
}

// The place of the first line end.
fn first_end(bytes: &[u8]) -> Option<usize>
    ensures { result ≡ position (λ b. b == 10) bytes.now }
{
    bytes.iter().position(|b| *b == b'\n')
}
