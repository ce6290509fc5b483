// 01's number and status of a refusal or failure, and the number that an answer is told by.

#![tactic(auto)]

ghost use Rattle.std.specs.Prelude.{◌≡◌};
ghost use Rattle.protocol.specs.Numbers.{number, status, answer_number};

use protocol::SocksError;

pub fn number(error: SocksError) -> u8
    ensures { result ≡ number error }
{
    match error {
        SocksError::ShortOutput => 1,
        SocksError::MissingHost => 2,
        SocksError::HostByte => 3,
        SocksError::MissingPort => 4,
        SocksError::CredentialTooLong => 5,
        SocksError::HostTooLong => 6,
        SocksError::IpV6 => 7,
        SocksError::DnsFailure => 8,
        SocksError::UnexpectedEof => 9,
        SocksError::Parsing => 10,
        SocksError::Unsupported => 12,
        SocksError::MethodMismatch => 13,
        SocksError::Failed => 14,
        SocksError::Command(_) => 15,
        SocksError::Settled => 16,
        SocksError::NotOpen => 17,
        SocksError::ShortText => 18,
        SocksError::Malformed => 19,
        SocksError::WrongCredentials => 20,
        SocksError::RouteLength => 21,
        SocksError::OutOfOrder => 22,
        SocksError::AnnouncesName => 23,
        SocksError::BadLine => 24,
        SocksError::CaptureCut => 25,
        SocksError::CaptureNotAccepted => 26,
        SocksError::ShortStream => 27,
    }
}

// Only what a proxy answers has a status: its own.
pub fn status(error: SocksError) -> u8
    ensures { result ≡ status error }
{
    match error {
        SocksError::Command(status) => status,
        _ => 0,
    }
}

pub fn answer_number(answer: Result<(), SocksError>) -> u8
    ensures { result ≡ answer_number answer }
{
    match answer {
        Ok(()) => 0,
        Err(error) => number(error),
    }
}
