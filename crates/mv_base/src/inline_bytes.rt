ghost use Rattle.std.specs.Prelude.{◌≡◌, ◌≤◌, length};

use std::marker::Model;

/// At most N bytes that take no memory of their own, seen as their list. N is below 256.
#[derive(Debug, Drop)]
pub struct InlineBytes<const N: usize> {
    len: u8,
    room: [u8; N],
}

impl<const N: usize> Model for InlineBytes<N> {
    ghost use Rattle.std.specs.Prelude.{List, ℕ, ◌≤◌, take, length};

    ghost Value = { List ℕ };

    ghost view = { λ b. take b.len b.room };

    ghost invariant = { λ b. b.len ≤ length b.room };
}

impl<const N: usize> InlineBytes<N> {
    /// These bytes.
    pub fn of(bytes: &[u8]) -> InlineBytes<N>
        requires fits { length bytes.now ≤ N }
        requires short { length bytes.now ≤ 255 }
        ensures { result ≡ bytes.now }
    {
        let len = bytes.len();
        let mut room = [0u8; N];
        room[..len].copy_from_slice(bytes);
        InlineBytes {
            len: len as u8,
            room,
        }
    }

    /// Equal bytes.
    pub fn copy(&self) -> InlineBytes<N>
        ensures { result ≡ self.now }
    {
        InlineBytes {
            len: self.len,
            room: self.room,
        }
    }

    /// The bytes.
    pub fn as_slice(&self) -> &[u8]
        ensures { result.now ≡ self.now }
    {
        &self.room[..self.len as usize]
    }
}
