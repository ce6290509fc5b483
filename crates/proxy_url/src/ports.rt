// F-9: the port, up to the text's end.
ghost use Rattle.std.specs.Prelude.{◌≡◌, ◌≤◌};
ghost use Rattle.proxy_url_spec.specs.Reading.{itself, port_goes, port_of};
ghost use Rattle.proxy_url.specs.Coded.{ending};

use address_text::digits::hex_value;

// Whether a digit may follow: a decimal one, not after a leading zero, within 65535.
#[tactic(auto, unfolding(proxy_url_spec::specs::Reading::port_goes))]
fn port_goes(value: usize, count: usize, digit: usize) -> bool
    requires { value ≤ 65535 }
    ensures { result ≡ port_goes value count digit }
{
    if 10 <= digit {
        false
    } else if value == 0 {
        count == 0
    } else {
        value * 10 + digit < 65536
    }
}

// The port, or the place at which it dies.
pub fn read_port(text: &[u8]) -> Result<u16, usize>
    ensures { result ≡ ending itself (port_of text.now) }
{
    let mut value: usize = 0;
    for (n, b) in text.iter().enumerate() {
        let digit = hex_value(*b);
        if !port_goes(value, n, digit) {
            return Err(n);
        }
        value = value * 10 + digit;
    }
    if text.is_empty() {
        return Err(0);
    }
    Ok(value as u16)
}
