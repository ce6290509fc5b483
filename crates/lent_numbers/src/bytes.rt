// Numbers at places of lent bytes, of two bytes or eight, the lowest byte first.
ghost use Rattle.std.specs.Prelude.{◌≡◌, ◌+◌, ◌≤◌, ◌%◌, length, take, drop};
ghost use Rattle.buffers.specs.write.Written.{Wrote};
ghost use Rattle.lent_numbers.specs.bytes.Numbers.{number, digits};

use buffers::write::{put_byte, wide};

pub fn two_at(s: &[u8], at: usize) -> usize
    requires { at + 2 ≤ length s.now }
    ensures { (result ≡ number (take 2 (drop at s.now))) × (result ≤ 65535) }
{
    wide(s[at]) + 256 * wide(s[at + 1])
}

fn four_at(s: &[u8], at: usize) -> usize
    requires { at + 4 ≤ length s.now }
    ensures { (result ≡ number (take 4 (drop at s.now))) × (result ≤ 4294967295) }
{
    two_at(s, at) + 65536 * two_at(s, at + 2)
}

pub fn eight_at(s: &[u8], at: usize) -> u64
    requires { at + 8 ≤ length s.now }
    ensures { result ≡ number (take 8 (drop at s.now)) }
{
    (four_at(s, at) + 4294967296 * four_at(s, at + 4)) as u64
}

fn low(n: u64) -> u8
    ensures { result ≡ n % 256 }
{
    (n % 256) as u8
}

fn put_two_of(s: &mut [u8], at: usize, n: u64) -> usize
    requires { at + 2 ≤ length s.old }
    ensures { Wrote s.old at (digits 2 n) result s.new }
{
    let next = put_byte(s, at, low(n));
    put_byte(s, next, low(n / 256))
}

// The lowest two bytes of a number.
pub fn put_two(s: &mut [u8], at: usize, n: usize) -> usize
    requires { at + 2 ≤ length s.old }
    ensures { Wrote s.old at (digits 2 n) result s.new }
{
    put_two_of(s, at, n as u64)
}

fn put_four_of(s: &mut [u8], at: usize, n: u64) -> usize
    requires { at + 4 ≤ length s.old }
    ensures { Wrote s.old at (digits 4 n) result s.new }
{
    let next = put_two_of(s, at, n);
    put_two_of(s, next, n / 256 / 256)
}

pub fn put_eight(s: &mut [u8], at: usize, n: u64) -> usize
    requires { at + 8 ≤ length s.old }
    ensures { Wrote s.old at (digits 8 n) result s.new }
{
    let next = put_four_of(s, at, n);
    put_four_of(s, next, n / 256 / 256 / 256 / 256)
}
