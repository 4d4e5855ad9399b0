// Text written into a lent buffer: words and decimal numbers.
ghost use Rattle.std.specs.Prelude.{◌≡◌, ◌+◌, ◌<◌, ◌≤◌, length};
ghost use Rattle.decimal.specs.Decimal.{decimal};
ghost use Rattle.turnover_output.specs.TextAt.{TextAt};

fn digit(d: u64) -> u8
    requires { d < 10 }
    ensures { result ≡ 48 + d }
{
    b'0' + d as u8
}

// The digits of x, from `at` on; answers the place behind them.
pub fn number(out: &mut [u8], at: usize, x: u64) -> usize
    requires { at + length (decimal x) ≤ length out.old }
    ensures { TextAt out.old at (decimal x) result out.new }
{
    if x < 10 {
        out[at] = digit(x);
        return at + 1;
    }
    let last = number(out, at, x / 10);
    out[last] = digit(x % 10);
    last + 1
}

// A word, from `at` on; answers the place behind it.
pub fn word(out: &mut [u8], at: usize, w: &[u8]) -> usize
    requires { at + length w.now ≤ length out.old }
    ensures { TextAt out.old at w.now result out.new }
{
    codec::put_bytes(out, at, w);
    at + w.len()
}
