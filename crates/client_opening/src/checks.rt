// 01, "Opening v5" and "Opening v4", and F-7: what is checked before a session is opened, in its order.
ghost use Rattle.std.specs.Prelude.{◌≡◌, []};
ghost use Rattle.protocol.specs.Answers.{Accepted};
ghost use Rattle.protocol.specs.Requests.{kind_of};
ghost use Rattle.protocol.specs.Opening.{is_name, is_none, first_record, first_four};
ghost use Rattle.client_opening.specs.checks.Checks.{check_shared, check_name, check_by5, check_by4};
ghost use Rattle.lookup.specs.Chosen.{records_of};

use address_text::host::all_allowed;
use buffers::fields::credentials_too_long;
use protocol::{AddressKind, Family, NAME_V4, NAME_V5, Record, SocksConfig, SocksError};

// Whether the record chosen is none of family four.
#[tactic(auto, unfolding(protocol::specs::Opening::first_four))]
fn finds_no_four(chosen: Option<Record>) -> bool
    ensures { result ≡ is_none (first_four (records_of chosen)) }
{
    match chosen {
        None => true,
        Some(record) => matches!(record.family, Family::Six),
    }
}

// What both versions refuse first, of a host without its brackets.
fn check_shared(text: &[u8], port: Option<u16>) -> Result<(), SocksError>
    ensures { result ≡ check_shared text.now port Accepted }
{
    if text.is_empty() {
        return Err(SocksError::MissingHost);
    }
    if !all_allowed(text) {
        return Err(SocksError::HostByte);
    }
    if port.is_none() {
        return Err(SocksError::MissingPort);
    }
    Ok(())
}

// What both versions refuse of a name: one that no request takes, and one to be looked up that no record serves.
fn check_name(
    kind: AddressKind,
    text: &[u8],
    most: usize,
    lookup: bool,
    none: bool,
) -> Result<(), SocksError>
    ensures { result ≡ check_name (is_name (kind_of kind [])) text.now most lookup none Accepted }
{
    match kind {
        AddressKind::Domain if most < text.len() => Err(SocksError::HostTooLong),
        AddressKind::Domain if lookup && none => Err(SocksError::DnsFailure),
        _ => Ok(()),
    }
}

// The checks of preparing over v5, for a host without its brackets and what it is as address text.
pub fn check5(
    config: SocksConfig,
    text: &[u8],
    kind: AddressKind,
    port: Option<u16>,
    user: &[u8],
    password: &[u8],
    chosen: Option<Record>,
) -> Result<(), SocksError>
    ensures { result ≡ check_by5 config text.now kind port user.now password.now (records_of chosen) }
{
    check_shared(text, port)?;
    if credentials_too_long(config.proxy_auth, user, password) {
        return Err(SocksError::CredentialTooLong);
    }
    check_name(kind, text, NAME_V5, config.local_dns, chosen.is_none())
}

// The checks of preparing over v4, in the same way. announcing: whether what is asked for is an address that announces a name.
pub fn check4(
    local_dns: bool,
    text: &[u8],
    kind: AddressKind,
    port: Option<u16>,
    chosen: Option<Record>,
    announcing: bool,
) -> Result<(), SocksError>
    ensures { result ≡ check_by4 local_dns text.now kind port (records_of chosen) announcing }
{
    check_shared(text, port)?;
    if matches!(kind, AddressKind::Ipv6) {
        return Err(SocksError::IpV6);
    }
    check_name(kind, text, NAME_V4, local_dns, finds_no_four(chosen))?;
    if announcing {
        return Err(SocksError::AnnouncesName);
    }
    Ok(())
}
