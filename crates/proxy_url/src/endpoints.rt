// F-9: a host, a colon and a port, up to the text's end.
ghost use Rattle.std.specs.Prelude.{◌≡◌};
ghost use Rattle.proxy_url_spec.specs.Reading.{plain_of};
ghost use Rattle.proxy_url.specs.Coded.{endpoint_coded, ending};

use crate::hosts::{HostPart, read_host};
use crate::ports::read_port;

#[derive(Clone, Copy)]
pub struct Endpoint {
    pub host: HostPart,
    pub port: u16,
}

// A host and a port, or the place at which they die.
pub fn read_endpoint(text: &[u8]) -> Result<Endpoint, usize>
    ensures { result ≡ ending endpoint_coded (plain_of text.now) }
{
    let (host, at) = read_host(text)?;
    // No `map_err`: that the sum fits is known here, and not in a closure.
    let port = match read_port(&text[at..]) {
        Ok(port) => port,
        Err(n) => return Err(at + n),
    };
    Ok(Endpoint { host, port })
}
