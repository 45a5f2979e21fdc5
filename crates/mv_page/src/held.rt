ghost use Rattle.std.specs.Prelude.{◌≡◌, ◌+◌, ◌≤◌, ◌++◌, length, take};
ghost use Rattle.mv_page.specs.declared.held.TheConstants.{PAGE_BYTES as room_bytes};

/// How many bytes a page holds.
pub const PAGE_BYTES: usize = 4_096;

/// Bytes that are held back.
#[derive(Drop)]
pub struct Held {
    pub bytes: [u8; PAGE_BYTES],
    pub len: usize,
    ghost within: { len ≤ room_bytes },
}

impl Held {
    /// How many bytes more there is room for.
    pub fn room(&self) -> usize
        ensures { result + self.now.len ≡ PAGE_BYTES }
    {
        PAGE_BYTES - self.len
    }

    /// Puts the piece behind the bytes.
    pub fn add(&mut self, piece: &[u8])
        requires { length piece.now + self.old.len ≤ PAGE_BYTES }
        ensures held { take self.new.len self.new.bytes
            ≡ take self.old.len self.old.bytes ++ piece.now }
        ensures len { self.new.len ≡ self.old.len + length piece.now }
    {
        let end = self.len + piece.len();
        self.bytes[self.len..end].copy_from_slice(piece);
        self.len = end;
    }
}
