// F-3: the proxy's end: the plain data that its definitions and the code above share. There is no function.

#![tactic(auto)]

use protocol::{SocksError, Version};

// What a v4 request has between its version and its user id: CD, DSTPORT and DSTIP.
// Four fields, since an array would be a list of any length in `ip_of`.
#[derive(Clone, Copy)]
pub struct Ports {
    pub command: u8,
    pub port: u16,
    pub first: u8,
    pub second: u8,
    pub third: u8,
    pub fourth: u8,
}

// The field of a client's requests that is awaited, with what is still needed of those before it.
#[derive(Clone, Copy)]
pub enum Field {
    // the version
    First,
    // NMETHODS and METHODS
    Methods,
    // VER, ULEN and UNAME
    User,
    // PLEN and PASSWD; whether the user was the one that is set
    Password(bool),
    // VER, CMD, RSV and ATYP
    Head,
    // DST.ADDR and DST.PORT, by the command and the type
    Address(u8, u8),
    // CD, DSTPORT and DSTIP
    Request,
    // USERID and its NULL, and a name and its NULL
    UserId(Ports),
    Name(Ports),
}

// Awaiting a field; or a destination is handed out, and the caller's answer awaited; or open; or failed.
#[derive(Clone, Copy)]
pub enum Stage {
    Awaiting(Field),
    Asked(Version),
    Open(Version),
    Failed(SocksError),
}

// What the end says of its own: nothing, the method chosen, how credentials were judged, or a reply with a status.
#[derive(Clone, Copy)]
pub enum Says {
    Nothing,
    Method(u8),
    Login(u8),
    Reply5(u8),
    Reply4(u8),
}
