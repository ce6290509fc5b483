// F-9: a route from proxy lines: its proxies, whose hosts and credentials are written into a lent buffer; or 21, or 24 with the number of
// the first line that is refused and the place in it.

#![tactic(auto)]

mod fields;
mod lines;

ghost use Rattle.std.specs.Prelude.{◌≡◌, ◌≤◌, length, replicate};
ghost use Rattle.route_session.specs.plan.Plan.{no_proxy};
ghost use Rattle.proxy_url_route.specs.Lines.{split};
ghost use Rattle.proxy_url_route.specs.Calls.{accepts, first_refused, refused_with, written_by, proxies_by, RouteResult, read_lines};

use crate::fields::{FIELDS, put_line};
use crate::lines::{line_at, mark_count};
use protocol::{PROXIES, SocksError, Version};
use route_session::plan::{Part, Proxy};

// What hosts and credentials of a route's proxies take: eight proxies, three fields each, of at most 255 bytes.
pub const ROUTE_TEXT: usize = PROXIES * FIELDS;

// The proxies of a route and their count, as the route's opening takes them with the buffer as its text. Or a refusal, beside which
// there are none: with 24 the line's number, counted from 1, and the place in it.
// One struct on a refusal too: the claim speaks of what is then left (`proxy_url_route/RoutesRead`).
#[derive(Clone, Copy)]
pub struct RouteLines {
    pub answer: Result<(), SocksError>,
    pub line: usize,
    pub place: usize,
    pub count: usize,
    pub proxies: [Proxy; PROXIES],
}

// The number of a line that is refused, 0 if none is, and the place in it.
#[derive(Clone, Copy)]
pub struct RefusedLine {
    pub line: usize,
    pub place: usize,
}

fn no_proxies() -> [Proxy; PROXIES]
    ensures { result ≡ replicate 8 no_proxy }
{
    let none = Proxy {
        version: Version::V4,
        host: Part { from: 0, len: 0 },
        port: None,
        proxy_auth: false,
        optimistic: false,
        user: Part { from: 0, len: 0 },
        password: Part { from: 0, len: 0 },
    };
    [none; PROXIES]
}

fn refuse(error: SocksError, line: usize, place: usize) -> RouteLines
    ensures { result ≡ refused_with error line place }
{
    RouteLines {
        answer: Err(error),
        line,
        place,
        count: 0,
        proxies: no_proxies(),
    }
}

fn is_accepted(answer: Result<(), SocksError>) -> bool
    ensures { result ≡ accepts answer }
{
    match answer {
        Ok(()) => true,
        Err(error) => false,
    }
}

// The first line that is refused.
fn first_refused(text: &[u8], count: usize) -> RefusedLine
    requires { count ≡ length (split text.now) }
    ensures { result ≡ first_refused 0 (split text.now) }
{
    let mut i: usize = 0;
    while i < count {
        let read = proxy_url::read(line_at(text, i));
        let answer = read.answer;
        if is_accepted(answer) {
            i += 1;
        } else {
            return RefusedLine {
                line: i + 1,
                place: read.place,
            };
        }
    }
    RefusedLine { line: 0, place: 0 }
}

// All lines are lawful: their proxies, one behind the other.
fn put_lines(text: &[u8], count: usize, buffer: &mut [u8]) -> [Proxy; PROXIES]
    requires { (count ≡ length (split text.now)) × ((count ≤ 8) × (length buffer.old ≡ 6120)) }
    ensures value { result ≡ proxies_by (split text.now) }
    ensures buffer_after { buffer.new ≡ written_by 0 (split text.now) buffer.old }
{
    let mut proxies = no_proxies();
    let mut i: usize = 0;
    while i < count {
        proxies[i] = put_line(line_at(text, i), i, buffer);
        i += 1;
    }
    proxies
}

// A route from the lines of a text.
pub fn read(text: &[u8], buffer: &mut [u8; ROUTE_TEXT]) -> RouteLines
    ensures { RouteResult (read_lines text.now buffer.old) result buffer.new }
{
    if text.len() == 0 {
        return refuse(SocksError::RouteLength, 0, 0);
    }
    let marks = mark_count(text);
    if PROXIES <= marks {
        return refuse(SocksError::RouteLength, 0, 0);
    }
    let count = marks + 1;
    let refused = first_refused(text, count);
    if 0 < refused.line {
        return refuse(SocksError::BadLine, refused.line, refused.place);
    }
    RouteLines {
        answer: Ok(()),
        line: 0,
        place: 0,
        count,
        proxies: put_lines(text, count, buffer),
    }
}
