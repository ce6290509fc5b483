// Numbers read from text.
ghost use Rattle.std.specs.Prelude.{◌≡◌, ◌≤◌, length};
ghost use Rattle.address_format.specs.numerals.Read.{digits_from, number_of};

// The value of digits; none if there is another byte among them.
fn digits_of(text: &[u8]) -> Option<u64>
    requires { length text.now ≤ 18 }
    ensures { result ≡ digits_from 0 text.now }
{
    let mut value: u64 = 0;
    for &b in text {
        if !b.is_ascii_digit() {
            return None;
        }
        value = value * 10 + u64::from(b - b'0');
    }
    Some(value)
}

// A number of at most 18 digits.
pub fn number_of(text: &[u8]) -> Option<u64>
    ensures { result ≡ number_of text.now }
{
    match text.len() {
        1..=18 => digits_of(text),
        _ => None,
    }
}
