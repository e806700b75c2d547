// Bytes in a room of a fixed size.
ghost use Rattle.std.specs.Prelude.{◌≤◌, length};

#[derive(Drop)]
pub(crate) struct Room<const N: usize> {
    bytes: [u8; N],
    len: usize,
    ghost within: { len ≤ N },
}

impl<const N: usize> Room<N> {
    pub(crate) fn new() -> Room<N> {
        Room {
            bytes: [0; N],
            len: 0,
        }
    }

    // Puts bytes behind what there is, as far as there is room. Gives how many were put.
    pub(crate) fn put(&mut self, bytes: &[u8]) -> usize
        ensures { result ≤ length bytes.now }
    {
        let from = self.len;
        let n = bytes.len().min(N - from);
        let room = &mut self.bytes[..];
        room[from..from + n].copy_from_slice(&bytes[..n]);
        self.len = from + n;
        n
    }

    pub(crate) fn bytes(&self) -> &[u8] {
        &self.bytes[..self.len]
    }

    // How many bytes there is room for.
    pub(crate) fn left(&self) -> usize {
        N - self.len
    }

    pub(crate) fn clear(&mut self) {
        self.len = 0;
    }
}
