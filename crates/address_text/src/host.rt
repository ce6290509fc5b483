// 01, "Host": its brackets and its bytes.
ghost use Rattle.std.specs.Prelude.{◌≡◌};
ghost use Rattle.protocol.specs.Host.{strip, all_allowed};

// The host without `[` and `]`, where both stand at its ends: a part of the caller's slice.
#[tactic(auto, unfolding(protocol::specs::Host::strip))]
pub fn strip_ipv6_brackets(host: &[u8]) -> &[u8]
    ensures { result.now ≡ strip host.now }
{
    match host {
        [b'[', inner @ .., b']'] => inner,
        _ => host,
    }
}

// Whether a host may have each of these bytes: the highest of their distances from 21 tells. Without an early end the compiler takes
// many bytes at once.
pub fn all_allowed(host: &[u8]) -> bool
    ensures { result ≡ all_allowed host.now }
{
    let mut top: u8 = 0;
    for b in host {
        top = top.max(b.wrapping_sub(0x21));
    }
    top <= 0x5D
}
