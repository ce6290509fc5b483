// F-3 and F-7: the caller's answer to a destination, and the end of the client's stream, for a proxy's end in lent bytes.
ghost use Rattle.std.specs.Prelude.{◌≡◌, [], length};
ghost use Rattle.proxy_spec.specs.End.{endpoint_of};
ghost use Rattle.proxy_spec.specs.declared.Stage.TheVariants as Stage;
ghost use Rattle.proxy_session.specs.Calls.{answer, end};
ghost use Rattle.lent_proxy.specs.State.{server_at};
ghost use Rattle.lent_proxy.specs.Calls.{record_of, Leaves};

use crate::state::{CODE_AT, HELD_AT, KEPT_AT, kind_at, put_stage, stage_at};
use crate::telling::{refused, standing_of};
use lent_numbers::bytes::{eight_at, put_two};
use lent_numbers::told::RawStep;
use protocol::{Record, SocksError, Version};
use proxy_spec::Stage;
use raw_numbers::family_of;

#[repr(C)]
#[derive(Clone, Copy)]
pub struct RawRecord {
    pub kind: u8,
    pub address: [u8; 16],
}

fn record_of(raw: RawRecord) -> Record
    ensures { result ≡ record_of raw }
{
    let address = raw.address;
    Record {
        family: family_of(raw.kind),
        address,
    }
}

// The answer to a client of a version.
fn answer_asked(
    s: &mut [u8],
    version: Version,
    status: u8,
    bound: RawRecord,
    port: u16,
    out: &mut [u8],
) -> RawStep
    requires { (length s.old ≡ 1539) × (length out.old ≡ 1024) × ((server_at s.old).stage ≡ Stage.Asked version) }
    ensures { Leaves (answer (server_at s.old) status (endpoint_of (record_of bound) port) out.old) s.old result s.new out.new }
{
    let stage = Stage::Asked(version);
    let said = proxy_replies::stages::answer(stage, status, record_of(bound), port, out);
    let kind = kind_at(s[CODE_AT]);
    put_stage(s, said.stage, kind);
    RawStep {
        used: 0,
        sent: said.sent,
        answer: 0,
        outcome: standing_of(said.stage),
    }
}

// The caller's answer to a destination: a status, and the address and port that are bound.
pub fn answer(s: &mut [u8], status: u8, bound: RawRecord, port: u16, out: &mut [u8]) -> RawStep
    requires { (length s.old ≡ 1539) × (length out.old ≡ 1024) }
    ensures { Leaves (answer (server_at s.old) status (endpoint_of (record_of bound) port) out.old) s.old result s.new out.new }
{
    let kept = eight_at(s, KEPT_AT);
    let n = stage_at(s[CODE_AT], kept);
    match n {
        11 => answer_asked(s, Version::V4, status, bound, port, out),
        12 => answer_asked(s, Version::V5, status, bound, port, out),
        _ => refused(s),
    }
}

// The client's stream has ended: an end that waits has failed.
pub fn end(s: &mut [u8]) -> RawStep
    requires { length s.old ≡ 1539 }
    ensures { Leaves (end (server_at s.old)) s.old result s.new [] }
{
    let kept = eight_at(s, KEPT_AT);
    let n = stage_at(s[CODE_AT], kept);
    if n == 0 {
        return refused(s);
    }
    if 10 < n {
        return refused(s);
    }
    let failed = Stage::Failed(SocksError::UnexpectedEof);
    let kind = kind_at(s[CODE_AT]);
    put_two(s, HELD_AT, 0);
    put_stage(s, failed, kind);
    RawStep {
        used: 0,
        sent: 0,
        answer: 0,
        outcome: standing_of(failed),
    }
}
