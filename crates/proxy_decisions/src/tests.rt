// F-3: what the bytes of a whole field say: the methods offered, whether a text is the one that is set, the seven bytes of a v4 request.
#![tactic(auto, unfolding(proxy_spec::specs::End::offers, protocol::specs::Opening::announces))]

ghost use Rattle.std.specs.Prelude.{◌≡◌, drop};
ghost use Rattle.protocol.specs.Opening.{announces};
ghost use Rattle.protocol.specs.Bytes.{same};
ghost use Rattle.proxy_spec.specs.End as end;
ghost use Rattle.proxy_spec.specs.Side.{is_known, ports_of, ip_of};

use proxy_requests::unread::Unread;
use proxy_spec::Ports;

// Whether a method stands among those of a greeting, behind their count.
pub fn offers(method: u8, bytes: &Unread) -> bool
    ensures { result ≡ end.offers method (drop 1 bytes.now) }
{
    bytes.behind(1).contains(method)
}

// Whether the bytes behind the first ones are a text.
pub fn same(bytes: &Unread, from: usize, text: &[u8]) -> bool
    ensures { result ≡ same (drop from bytes.now) text.now }
{
    bytes.behind(from).is(text)
}

pub fn is_known(kind: u8) -> bool
    ensures { result ≡ is_known kind }
{
    matches!(kind, 0x01 | 0x03 | 0x04)
}

// CD, DSTPORT and DSTIP.
pub fn ports_of(bytes: &Unread) -> Ports
    ensures { result ≡ ports_of bytes.now }
{
    Ports {
        command: bytes.byte(0),
        port: bytes.port(1),
        first: bytes.byte(3),
        second: bytes.byte(4),
        third: bytes.byte(5),
        fourth: bytes.byte(6),
    }
}

pub fn announces_name(ports: Ports) -> bool
    ensures { result ≡ announces (ip_of ports) }
{
    matches!(
        ports,
        Ports {
            first: 0,
            second: 0,
            third: 0,
            fourth: 1..,
            ..
        }
    )
}
