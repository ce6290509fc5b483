// 01, "Host" and "Lookup": what a host is as address text, and whether preparing reads its lookup's list.
ghost use Rattle.std.specs.Prelude.{◌≡◌};
ghost use Rattle.protocol.specs.Host.{strip};
ghost use Rattle.protocol.specs.AddressReading.{destination_of};
ghost use Rattle.address_text.specs.ipv4.Answers.{address_text};
ghost use Rattle.client_opening.specs.host.Lookups.{looks_up};

use address_text::address::read_address;
use address_text::host::strip_ipv6_brackets;
use address_text::ipv4::AddressText;
use protocol::AddressKind;

// What a host stands for, read once for all that preparing does with it.
pub fn read_host(host: &[u8]) -> AddressText
    ensures { result ≡ address_text (destination_of (strip host.now)) }
{
    read_address(strip_ipv6_brackets(host))
}

// Whether a list of records is read: local lookup is on, and the host is a name that a request takes.
pub fn looks_up(local_dns: bool, host: &[u8], read: AddressText, most: usize) -> bool
    ensures { read ≡ address_text (destination_of (strip host.now)) → result ≡ looks_up local_dns host.now most }
{
    local_dns && strip_ipv6_brackets(host).len() <= most && matches!(read.kind, AddressKind::Domain)
}
