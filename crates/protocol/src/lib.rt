// 01 and 02: the plain data and the sizes that the definitions in specs/ and the code above share. There is no function.

#![tactic(auto)]

// A session's hold: a reply that is not decided has at most so many bytes (01; `undecided_261`).
pub const HOLD: usize = 261;

// The output that a start and a delivery over v5 must lend (F-4; `start_room`, `delivery_room`).
pub const OUTPUT_V5: usize = 778;

// The output that a start over v4 must lend (01; `start_room`).
pub const START_OUTPUT_V4: usize = 1024;

// The output that a delivery over v4 must lend (01; `delivery_room`).
pub const DELIVERY_OUTPUT_V4: usize = 262;

// The output that each call of the proxy's end must lend (F-3).
pub const PROXY_OUTPUT: usize = 262;

// The output that each call on a route must lend, for each of its proxies (F-5; `room_for`).
pub const ROUTE_OUTPUT: usize = 1024;

// How long a connect request and credentials may be (F-4; `Limits`).
pub const CONNECT: usize = 262;

pub const CREDENTIALS: usize = 513;

// What a session keeps of its requests: those of v5 have at most 778 bytes, the one of v4 1,024 (`Limits`).
pub const REQUESTS: usize = 1024;

// How long a name may be, over v5 and over v4 (01; `conditions5`, `conditions4`).
pub const NAME_V5: usize = 255;

pub const NAME_V4: usize = 1014;

// How long a user or a password may be (01; `conditions5`), and a user id over v4 (F-3).
pub const CREDENTIAL: usize = 255;

pub const USER_ID: usize = 255;

// How many proxies a route may have (F-5; `conditions`).
pub const PROXIES: usize = 8;

// What the proxies of a route keep of their requests.
pub const ROUTE_REQUESTS: usize = 8192;

// The longest text of an address and port: a name of 255 bytes, a colon and five digits (F-1; `bound_text`).
pub const ENDPOINT_TEXT: usize = 261;

// The version that a proxy speaks.
#[derive(Clone, Copy)]
pub enum Version {
    V4,
    V5,
}

// The methods of RFC 1928, section 3, that the client knows.
#[derive(Clone, Copy)]
pub enum AuthMethod {
    NoAuth,
    UserPass,
    NoneAcceptable,
}

#[derive(Clone, Copy)]
pub enum Family {
    Four,
    Six,
}

// An answer of a lookup. Family four uses the first four address bytes.
#[derive(Clone, Copy)]
pub struct Record {
    pub family: Family,
    pub address: [u8; 16],
}

// proxy_auth: with user and password. local_dns: names are looked up by the caller. optimistic: all requests go at the start.
#[derive(Clone, Copy)]
pub struct SocksConfig {
    pub proxy_auth: bool,
    pub local_dns: bool,
    pub optimistic: bool,
}

#[derive(Clone, Copy)]
pub enum AddressKind {
    Ipv4,
    Ipv6,
    Domain,
}

// An address and its port: a kind, the first bytes of an array, and the port. An Ipv4 has four bytes, an Ipv6 sixteen, a Domain `len`.
#[derive(Clone, Copy)]
pub struct Address {
    pub kind: AddressKind,
    pub len: u8,
    pub bytes: [u8; NAME_V5],
    pub port: u16,
}

// What an open session keeps of its bound address beside the address's bytes.
#[derive(Clone, Copy)]
pub struct Bound {
    pub kind: AddressKind,
    pub port: u16,
}

// Why a call was refused or a session failed. specs/Numbers.antt gives each its number and status.
#[derive(Clone, Copy)]
pub enum SocksError {
    ShortOutput,
    MissingHost,
    HostByte,
    MissingPort,
    CredentialTooLong,
    HostTooLong,
    IpV6,
    DnsFailure,
    UnexpectedEof,
    Parsing,
    Unsupported,
    MethodMismatch,
    Failed,
    Command(u8),
    Settled,
    NotOpen,
    ShortText,
    Malformed,
    WrongCredentials,
    RouteLength,
    OutOfOrder,
    AnnouncesName,
    BadLine,
    CaptureCut,
    CaptureNotAccepted,
    ShortStream,
}

// The reply that a session waits for. A NegotiationRes answers the method that was sent.
#[derive(Clone, Copy)]
pub enum Reply {
    NegotiationRes(AuthMethod),
    AuthenticationRes,
    ProxyRes,
    Response,
}

#[derive(Clone, Copy)]
pub enum Outcome {
    Waiting,
    Open,
    Failed(SocksError),
}

// How far a UTF-8 text has been read (RFC 3629, section 4): between characters, before one to three tails,
// behind E0, ED, F0 or F4, or past what no text has.
#[derive(Clone, Copy)]
pub enum Utf8State {
    Boundary,
    Tail1,
    Tail2,
    Tail3,
    AfterE0,
    AfterEd,
    AfterF0,
    AfterF4,
    Invalid,
}

// Digits at the start of a text: how many, and their value.
#[derive(Clone, Copy)]
pub struct Digits {
    pub count: usize,
    pub value: usize,
}

// What follows the digits of a group of IPv6 text.
#[derive(Clone, Copy)]
pub enum Follows {
    Bad,
    End,
    Dot,
    Colons,
    Colon,
}
