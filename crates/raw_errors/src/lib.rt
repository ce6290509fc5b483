// The error of a number, for programs in C and Rust. Every number has a meaning.

#![tactic(auto)]

ghost use Rattle.std.specs.Prelude.{◌≡◌};
ghost use Rattle.raw_errors.specs.Errors.{error_of};

use protocol::SocksError;

// The error of a number and a status: 16's for a number that no error has.
pub fn error_of(n: u8, status: u8) -> SocksError
    ensures { result ≡ error_of n status }
{
    match n {
        1 => SocksError::ShortOutput,
        2 => SocksError::MissingHost,
        3 => SocksError::HostByte,
        4 => SocksError::MissingPort,
        5 => SocksError::CredentialTooLong,
        6 => SocksError::HostTooLong,
        7 => SocksError::IpV6,
        8 => SocksError::DnsFailure,
        9 => SocksError::UnexpectedEof,
        10 => SocksError::Parsing,
        12 => SocksError::Unsupported,
        13 => SocksError::MethodMismatch,
        14 => SocksError::Failed,
        15 => SocksError::Command(status),
        17 => SocksError::NotOpen,
        18 => SocksError::ShortText,
        19 => SocksError::Malformed,
        20 => SocksError::WrongCredentials,
        21 => SocksError::RouteLength,
        22 => SocksError::OutOfOrder,
        23 => SocksError::AnnouncesName,
        24 => SocksError::BadLine,
        25 => SocksError::CaptureCut,
        26 => SocksError::CaptureNotAccepted,
        27 => SocksError::ShortStream,
        _ => SocksError::Settled,
    }
}
