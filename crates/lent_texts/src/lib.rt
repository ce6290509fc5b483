// Texts of errors and of statuses, for any foreign interface: bytes at the start of a lent buffer.

#![tactic(auto)]

ghost use Rattle.std.specs.Prelude.{[], ◌≤◌, ◌<◌, length, get_or};
ghost use Rattle.lent_texts.specs.Texts.{error_text, status_text, Copies};
ghost use Rattle.lent_texts.specs.Table.{texts, Picks};

use buffers::write::copy;

// Where each text begins, and where the last one ends.
const PLACES: [usize; 43] = [
    0, 8, 38, 57, 93, 112, 160, 185, 213, 252, 294, 324, 337, 375, 420, 459, 509, 561, 584, 612,
    645, 683, 717, 766, 806, 831, 867, 904, 934, 943, 971, 1004, 1023, 1039, 1057, 1068, 1089,
    1115, 1125, 1140, 1166, 1222, 1283,
];

// The text of a place in the table: those of the errors, of v5's statuses, of no status, of v4's statuses.
fn text(which: u8, buffer: &mut [u8]) -> usize
    requires which_bound { which < 42 }
    requires in_bounds { 64 ≤ length buffer.old }
    ensures { Copies (get_or texts which []) buffer.old result buffer.new }
{
    let all: &[u8] =
        b"no errorthe output buffer is too shortthe host is missingthe host has a byte that no host has\
        the port is missingthe user or the password has more than 255 bytesthe host name is too long\
        SOCKS4 takes no IPv6 addressthe lookup found no address that serves\
        the other side closed within the handshakethe proxy's reply is malformedunknown error\
        no authentication method is acceptablethe proxy chose a method that was not offered\
        the proxy refused the user and passwordthe proxy refused the request; the status says why\
        the call is out of turn, or the handshake is settledthe session is not open\
        the text buffer is too shortthe client's request is malformedthe client's user or password is wrong\
        a route takes one to eight proxiesthe session is not started, or was started before\
        SOCKS4 cannot ask for an address 0.0.0.xthe proxy line goes wrong\
        an entry runs past the capture's endthe capture is not a lawful handshake\
        the stream buffer is too shortsucceededgeneral SOCKS server failureconnection not allowed by ruleset\
        network unreachablehost unreachableconnection refusedTTL expiredcommand not supported\
        address type not supportedunassignedrequest grantedrequest rejected or failed\
        request rejected: cannot connect to identd on the client\
        request rejected: client and identd report different user-ids";
    let from = PLACES[which as usize];
    let end = PLACES[which as usize + 1];
    copy(buffer, 0, &all[from..end])
}

// The text of an error's number.
pub fn error_text(number: u8, buffer: &mut [u8]) -> usize
    requires { 64 ≤ length buffer.old }
    ensures { Copies (error_text number) buffer.old result buffer.new }
{
    if number < 28 {
        return text(number, buffer);
    }
    text(11, buffer)
}

fn status_at(version: u8, status: u8) -> u8
    ensures { Picks result (status_text version status) }
{
    match version {
        5 => match status {
            0..=8 => 28 + status,
            _ => 37,
        },
        _ => match status {
            90..=93 => status - 52,
            _ => 37,
        },
    }
}

// The text of a status; any version but 5 is 4.
pub fn status_text(version: u8, status: u8, buffer: &mut [u8]) -> usize
    requires { 64 ≤ length buffer.old }
    ensures { Copies (status_text version status) buffer.old result buffer.new }
{
    text(status_at(version, status), buffer)
}
