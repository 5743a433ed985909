// The numbers that are read, and the lines that are printed.
use std::io;

// The number that stands after that many spaces.
pub(crate) fn count(input: &[u8], after: usize) -> u64 {
    let mut n = 0;
    let mut spaces = 0;
    for b in input {
        spaces = with_space(spaces, *b);
        if spaces == after {
            n = with_digit(n, *b);
        }
    }
    n
}

// A month's days: 28 to 31 stay as they are.
pub(crate) fn days(n: u64) -> u8 {
    (28 + n % 4) as u8
}

pub(crate) fn line(rt: &impl Print, way: &str, calls: u64, sum: u64) -> io::Result<()> {
    println!(rt; "{way} {calls} {sum}")
}

fn with_space(spaces: usize, b: u8) -> usize {
    if b == b' ' {
        return spaces % 1_000 + 1;
    }
    spaces
}

// The number with one digit more, of which the last ten stay; any other byte leaves it as it is.
fn with_digit(n: u64, b: u8) -> u64 {
    if !b.is_ascii_digit() {
        return n;
    }
    n % 1_000_000_000 * 10 + u64::from(b - b'0')
}
