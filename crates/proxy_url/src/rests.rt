// F-9: what stands behind the scheme: a host and a port, with user and password before them or without.
ghost use Rattle.std.specs.Prelude.{◌≡◌};
ghost use Rattle.proxy_url_spec.specs.Reading.{with_of, rest_of};
ghost use Rattle.proxy_url.specs.Coded.{authority_coded, ending};

use crate::credentials::{Credential, read_credential};
use crate::endpoints::{Endpoint, read_endpoint};
use crate::hosts::HostPart;
use protocol::Version;

// User and password, if they are given, a host and a port.
#[derive(Clone, Copy)]
pub struct Authority {
    pub credentials: Option<(Credential, Credential)>,
    pub endpoint: Endpoint,
}

// User and password, a host and a port; or the place at which they die.
fn read_with_credentials(text: &[u8]) -> Result<Authority, usize>
    ensures { result ≡ ending authority_coded (with_of text.now) }
{
    let (user, at) = read_credential(text, b':')?;
    let behind_user = &text[at..];
    // No `map_err`: that the sum fits is known here, and not in a closure.
    let (password, n) = match read_credential(behind_user, b'@') {
        Ok(read) => read,
        Err(n) => return Err(at + n),
    };
    let endpoint = match read_endpoint(&behind_user[n..]) {
        Ok(endpoint) => endpoint,
        Err(m) => return Err(at + (n + m)),
    };
    let host = HostPart {
        at: at + (n + endpoint.host.at),
        ..endpoint.host
    };
    Ok(Authority {
        credentials: Some((user, password)),
        endpoint: Endpoint { host, ..endpoint },
    })
}

// What a version lets stand there: over v4 no credentials. A text that is neither dies where the later of the two does.
pub fn read_rest(version: Version, text: &[u8]) -> Result<Authority, usize>
    ensures { result ≡ ending authority_coded (rest_of version text.now) }
{
    let place = match read_endpoint(text) {
        Ok(endpoint) => {
            return Ok(Authority {
                credentials: None,
                endpoint,
            });
        }
        Err(place) => place,
    };
    match version {
        Version::V4 => Err(place),
        // No `map_err`: it copies what was read.
        Version::V5 => match read_with_credentials(text) {
            Err(with) => Err(place.max(with)),
            whole => whole,
        },
    }
}
