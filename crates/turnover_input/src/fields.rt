// The numbers of a line.
ghost use Rattle.std.specs.Prelude.{◌≡◌, ◌<◌, ◌≤◌, length};
ghost use Rattle.turnover_input.specs.Fields.{greatest, item, first, more, seen, second_of, third_of, numbers_of};

// What a line has behind its word: one, two or three numbers.
#[derive(Clone, Copy, Debug, PartialEq, Eq)]
pub enum Numbers {
    One(u64),
    Two(u64, u64),
    Three(u64, u64, u64),
}

// The widest field has four bytes.
const GREATEST: u64 = 4294967295;

// The digits of a number that is `start` so far, and what stands behind it.
fn digits(line: &[u8], start: u64) -> Option<(u64, &[u8])>
    requires { start ≤ greatest }
    ensures { seen result ≡ more start line.now }
{
    let mut v = start;
    for (i, x) in line.iter().enumerate() {
        if !x.is_ascii_digit() {
            return Some((v, &line[i..]));
        }
        let w = v * 10 + u64::from(*x - b'0');
        if (v == 0) | (GREATEST < w) {
            return None;
        }
        v = w;
    }
    Some((v, &line[line.len()..]))
}

// A number, and what stands behind it.
fn number(line: &[u8]) -> Option<(u64, &[u8])>
    ensures { seen result ≡ first line.now }
{
    let (x, rest) = line.split_first()?;
    if !x.is_ascii_digit() {
        return None;
    }
    digits(rest, u64::from(*x - b'0'))
}

// A space and a number, and what stands behind it; the line has not ended.
fn spaced(line: &[u8]) -> Option<(u64, &[u8])>
    requires { 0 < length line.now }
    ensures { seen result ≡ item line.now }
{
    number(line.strip_prefix(b" ")?)
}

// The third number, or the end.
fn third(line: &[u8], a: u64, b: u64) -> Option<Numbers>
    ensures { result ≡ third_of a b (item line.now) }
{
    if line.is_empty() {
        return Some(Numbers::Two(a, b));
    }
    let (c, rest) = spaced(line)?;
    if !rest.is_empty() {
        return None;
    }
    Some(Numbers::Three(a, b, c))
}

// The second number and what follows, or the end.
fn second(line: &[u8], a: u64) -> Option<Numbers>
    ensures { result ≡ second_of a (item line.now) }
{
    if line.is_empty() {
        return Some(Numbers::One(a));
    }
    let (b, rest) = spaced(line)?;
    third(rest, a, b)
}

// The numbers of a line, up to its end.
pub fn read(line: &[u8]) -> Option<Numbers>
    ensures { result ≡ numbers_of line.now }
{
    let (a, rest) = number(line)?;
    second(rest, a)
}
