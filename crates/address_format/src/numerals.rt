// F-1: numbers as text. Each `put_` function puts its bytes into the output from a place on, and answers the place behind them.
ghost use Rattle.std.specs.Prelude.{◌≡◌, ◌+◌, ◌*◌, ◌≤◌, ◌<◌, ◌∷◌, [], length};
ghost use Rattle.address_format.specs.numerals.Digits.{glyph, hex_of, digits_of, decimal_of};
ghost use Rattle.address_format.specs.numerals.Added.{Adds};

pub mod read;

// The ASCII code of a digit below 16.
pub fn hex_digit(d: u8) -> u8
    requires { d < 16 }
    ensures { result ≡ glyph d }
{
    if d < 10 { b'0' + d } else { b'a' - 10 + d }
}

// Two digits for each byte.
pub fn put_hex(s: &[u8], out: &mut [u8], at: usize) -> usize
    requires { at + 2 * length s.now ≤ length out.old }
    ensures value { result ≡ at + 2 * length s.now }
    ensures adds { Adds out.old at (hex_of s.now) result out.new }
{
    let mut end = at;
    for &b in s {
        out[end] = hex_digit(b / 16);
        out[end + 1] = hex_digit(b % 16);
        end += 2;
    }
    end
}

fn put_digit(d: u8, out: &mut [u8], at: usize) -> usize
    requires { (d < 16) × (at < length out.old) }
    ensures { Adds out.old at (glyph d ∷ []) result out.new }
{
    out[at] = hex_digit(d);
    at + 1
}

// The fewest digits of a number in a base. The last one goes behind those of the number without it.
pub fn put_digits(n: u64, base: u64, out: &mut [u8], at: usize) -> usize
    requires { (10 ≤ base) × ((base ≤ 16) × (at + length (digits_of base n) ≤ length out.old)) }
    ensures { Adds out.old at (digits_of base n) result out.new }
{
    if n < base {
        return put_digit(n as u8, out, at);
    }
    let end = put_digits(n / base, base, out, at);
    put_digit((n % base) as u8, out, end)
}

pub fn put_decimal(n: u64, out: &mut [u8], at: usize) -> usize
    requires { at + length (decimal_of n) ≤ length out.old }
    ensures { Adds out.old at (decimal_of n) result out.new }
{
    put_digits(n, 10, out, at)
}
