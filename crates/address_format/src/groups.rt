// F-1: rows of numbers, and the groups of an IPv6 address, written as text. Each `put_` function puts its bytes from a place on, and answers the place
// behind them.
ghost use Rattle.std.specs.Prelude.{◌≡◌, cond, ◌∷◌, ◌++◌, suc, ◌+◌, ◌*◌, ◌≤◌, ◌<◌, eqb, length, take, drop};
ghost use Rattle.address_format.specs.numerals.Added.{Adds};
ghost use Rattle.address_format.specs.groups.Groups.{behind_mark, split_by, groups_of, longest, groups_text};

use crate::numerals::put_digits;

// A run of zero groups: where it begins, and how many they are.
#[derive(Clone, Copy)]
struct ZeroRun {
    start: usize,
    count: usize,
}

// The groups of an IPv6 address.
pub fn groups_of(bytes: &[u8]) -> [u16; 8]
    requires { length bytes.now ≡ 16 }
    ensures { (length result ≡ 8) × (result ≡ groups_of bytes.now) }
{
    let mut groups = [0u16; 8];
    for i in 0..8 {
        groups[i] = u16::from(bytes[2 * i]) * 256 + u16::from(bytes[2 * i + 1]);
    }
    groups
}

// The zero groups ahead, one group further in front.
fn zeros_from(group: u16, zeros: usize) -> usize
    requires { zeros < 8 }
    ensures { result ≡ cond (eqb group 0) (suc zeros) 0 }
{
    if group == 0 { zeros + 1 } else { 0 }
}

// The longest run. Going down, a run as long as the best so far is the earlier one.
fn longest_run(groups: &[u16]) -> ZeroRun
    requires { length groups.now ≡ 8 }
    ensures { (result.start ≡ (longest groups.now).start) × ((result.count ≡ (longest groups.now).count) × (result.start + result.count ≤ 8)) }
{
    let mut start: usize = 8;
    let mut count: usize = 0;
    let mut zeros: usize = 0;
    let mut i: usize = 8;
    while 0 < i {
        i -= 1;
        zeros = zeros_from(groups[i], zeros);
        if count <= zeros {
            start = i;
            count = zeros;
        }
    }
    ZeroRun { start, count }
}

// Numbers in a base, each behind a mark.
fn put_behind(values: &[u16], base: u64, mark: u8, out: &mut [u8], at: usize) -> usize
    requires { (10 ≤ base) × ((base ≤ 16) × (at + 6 * length values.now ≤ length out.old)) }
    ensures upper_bound { result ≤ at + 6 * length values.now }
    ensures adds { Adds out.old at (behind_mark base mark values.now) result out.new }
{
    let mut end = at;
    for &value in values {
        out[end] = mark;
        end = put_digits(u64::from(value), base, out, end + 1);
    }
    end
}

// Numbers in a base, split by a mark.
pub fn put_row(values: &[u16], base: u64, mark: u8, out: &mut [u8], at: usize) -> usize
    requires { (10 ≤ base) × ((base ≤ 16) × (at + 6 * length values.now ≤ length out.old)) }
    ensures upper_bound { result ≤ at + 6 * length values.now }
    ensures adds { Adds out.old at (split_by base mark values.now) result out.new }
{
    let [first, rest @ ..] = values else {
        return at;
    };
    let end = put_digits(u64::from(*first), base, out, at);
    put_behind(rest, base, mark, out, end)
}

// `::` in place of the groups from `start` to `behind`.
fn put_shortened(groups: &[u16], start: usize, behind: usize, out: &mut [u8], at: usize) -> usize
    requires { (length groups.now ≡ 8) × ((start ≤ behind) × ((behind ≤ 8) × (at + 50 ≤ length out.old))) }
    ensures upper_bound { result ≤ at + 50 }
    ensures adds { Adds out.old at (split_by 16 0x3A (take start groups.now) ++ (0x3A ∷ 0x3A ∷ split_by 16 0x3A (drop behind groups.now))) result out.new }
{
    let end = put_row(&groups[..start], 16, b':', out, at);
    out[end] = b':';
    out[end + 1] = b':';
    put_row(&groups[behind..], 16, b':', out, end + 2)
}

// The longest run is shortened, if it is of more than one group.
pub fn put_groups(groups: &[u16], out: &mut [u8], at: usize) -> usize
    requires { (length groups.now ≡ 8) × (at + 50 ≤ length out.old) }
    ensures upper_bound { result ≤ at + 50 }
    ensures adds { Adds out.old at (groups_text groups.now) result out.new }
{
    let run = longest_run(groups);
    if run.count <= 1 {
        return put_row(groups, 16, b':', out, at);
    }
    put_shortened(groups, run.start, run.start + run.count, out, at)
}
