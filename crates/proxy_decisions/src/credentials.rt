// F-3: what the proxy's end was set up with, as its calls lend it.
use std::marker::Model;

// Without authentication user and password are not looked at.
#[derive(Drop)]
pub struct Credentials<'a> {
    pub authenticates: bool,
    pub user: &'a [u8],
    pub password: &'a [u8],
}

impl<'a> Model for Credentials<'a> {
    ghost use Rattle.proxy_spec.specs.End.{Setup};

    ghost Value = { Setup };

    ghost view = { λ c. record { authenticates = c.authenticates; user = c.user.now; password = c.password.now } };
}
