// The stream of an opening by its kind.
ghost use Rattle.std.specs.Prelude.{◌≡◌, option_map};
ghost use Rattle.endings_spec.specs.declared.Kind.TheVariants as Kind;
ghost use Rattle.endings_spec.specs.Streams.{v4_reply, open_stream, stream_of};
ghost use Rattle.endings.specs.Coded.{bytes_of, connect_stream, kind_by};

use crate::word::Word;
use endings_spec::{Kind, OutcomeStatus};
use protocol::Version;

fn v4_reply(cd: u8) -> Word
    ensures { bytes_of result ≡ v4_reply cd }
{
    Word::new(&[0x00, cd, 0x00, 0x00, 0x00, 0x00, 0x00, 0x00])
}

// Over SOCKS5 up to a connect reply with a name of one byte.
fn connect_stream(authenticates: bool, rep: u8) -> Word
    ensures { bytes_of result ≡ connect_stream authenticates rep }
{
    if authenticates {
        return Word::new(&[
            0x05, 0x02, 0x01, 0x00, 0x05, rep, 0x00, 0x03, 0x01, 0x00, 0x00, 0x00,
        ]);
    }
    Word::new(&[0x05, 0x00, 0x05, rep, 0x00, 0x03, 0x01, 0x00, 0x00, 0x00])
}

// The stream by which an opening of this kind opens.
pub fn open_stream(kind: Kind) -> Word
    ensures { bytes_of result ≡ open_stream kind }
{
    match kind {
        Kind::WithoutCredentials => connect_stream(false, 0x00),
        Kind::WithCredentials => connect_stream(true, 0x00),
        Kind::OverV4 => v4_reply(0x5A),
    }
}

#[tactic(auto, unfolding(endings_spec::specs::Streams::stream_of))]
fn without_credentials(wanted: OutcomeStatus) -> Option<Word>
    ensures { option_map bytes_of result ≡ stream_of Kind.WithoutCredentials wanted }
{
    match (wanted.number, wanted.status) {
        (9, 0) => Some(Word::new(&[])),
        (10, 0) => Some(Word::new(&[0x00, 0x00])),
        (12, 0) => Some(Word::new(&[0x05, 0xFF])),
        (13, 0) => Some(Word::new(&[0x05, 0x02])),
        (15, 1..=8) => Some(connect_stream(false, wanted.status)),
        (0, 0) => Some(open_stream(Kind::WithoutCredentials)),
        _ => None,
    }
}

#[tactic(auto, unfolding(endings_spec::specs::Streams::stream_of))]
fn with_credentials(wanted: OutcomeStatus) -> Option<Word>
    ensures { option_map bytes_of result ≡ stream_of Kind.WithCredentials wanted }
{
    match (wanted.number, wanted.status) {
        (9, 0) => Some(Word::new(&[])),
        (10, 0) => Some(Word::new(&[0x00, 0x00])),
        (12, 0) => Some(Word::new(&[0x05, 0xFF])),
        (13, 0) => Some(Word::new(&[0x05, 0x00])),
        (14, 0) => Some(Word::new(&[0x05, 0x02, 0x01, 0x01])),
        (15, 1..=8) => Some(connect_stream(true, wanted.status)),
        (0, 0) => Some(open_stream(Kind::WithCredentials)),
        _ => None,
    }
}

#[tactic(auto, unfolding(endings_spec::specs::Streams::stream_of))]
fn over_v4(wanted: OutcomeStatus) -> Option<Word>
    ensures { option_map bytes_of result ≡ stream_of Kind.OverV4 wanted }
{
    match (wanted.number, wanted.status) {
        (9, 0) => Some(Word::new(&[])),
        (10, 0) => Some(v4_reply(0x00)),
        (15, 91..=93) => Some(v4_reply(wanted.status)),
        (0, 0) => Some(open_stream(Kind::OverV4)),
        _ => None,
    }
}

// The stream for what is wanted of an opening of this kind.
pub fn stream_of(kind: Kind, wanted: OutcomeStatus) -> Option<Word>
    ensures { option_map bytes_of result ≡ stream_of kind wanted }
{
    match kind {
        Kind::WithoutCredentials => without_credentials(wanted),
        Kind::WithCredentials => with_credentials(wanted),
        Kind::OverV4 => over_v4(wanted),
    }
}

pub fn kind_by(version: Version, authenticates: bool) -> Kind
    ensures { result ≡ kind_by version authenticates }
{
    match (version, authenticates) {
        (Version::V5, true) => Kind::WithCredentials,
        (Version::V5, false) => Kind::WithoutCredentials,
        (Version::V4, _) => Kind::OverV4,
    }
}
