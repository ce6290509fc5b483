// A stream of at most twelve bytes.
ghost use Rattle.std.specs.Prelude.{◌≡◌, ◌≤◌, length};

// The first `len` of twelve bytes.
#[derive(Clone, Copy)]
pub struct Word {
    pub bytes: [u8; 12],
    pub len: usize,
    ghost within: { len ≤ 12 },
}

impl Word {
    ghost use Rattle.endings.specs.Coded.{bytes_of};

    pub fn new(start: &[u8]) -> Word
        requires { length start.now ≤ 12 }
        ensures { bytes_of result ≡ start.now }
    {
        let len = start.len();
        let mut bytes = [0u8; 12];
        bytes[..len].copy_from_slice(start);
        Word { bytes, len }
    }

    pub fn as_slice(&self) -> &[u8]
        ensures same { result.now ≡ bytes_of self.now }
        ensures few { length result.now ≤ 12 }
    {
        &self.bytes[..self.len]
    }
}
