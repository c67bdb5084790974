// Bytes for calls to work on.

// What stands in a buffer, and how many of its bytes, from the first, a call is lent. A case may ask for more than there are.
#[derive(Drop)]
pub(crate) struct Buffer<const N: usize> {
    pub bytes: [u8; N],
    pub lent: usize,
}

impl<const N: usize> Buffer<N> {
    // All zeros, and nothing lent.
    pub fn new() -> Buffer<N> {
        Buffer {
            bytes: [0; N],
            lent: 0,
        }
    }

    // All bytes alike, and so many of them lent.
    pub fn fill(&mut self, byte: u8, lent: usize) {
        self.bytes.fill(byte);
        self.lent = lent;
    }

    pub fn lent(&self) -> Option<&[u8]> {
        self.bytes.get(..self.lent)
    }

    // In steps, since the check does not cover `get_mut` of an array behind a field whose part is handed out.
    pub fn lent_mut(&mut self) -> Option<&mut [u8]> {
        let bytes = &mut self.bytes;
        let all = &mut bytes[..];
        all.get_mut(..self.lent)
    }

    // The word at a place; 0 where there are no four bytes.
    pub fn word(&self, at: usize) -> u32 {
        match self.bytes.get(at..).and_then(|rest| rest.first_chunk()) {
            Some(word) => u32::from_le_bytes(*word),
            None => 0,
        }
    }

    // A word at a place, where there are four bytes.
    pub fn put_word(&mut self, at: usize, word: u32) {
        if let Some(rest) = self.bytes.get_mut(at..) {
            if let Some(place) = rest.first_chunk_mut() {
                *place = word.to_le_bytes();
            }
        }
    }

    // A byte at a place, where there is one.
    pub fn put_byte(&mut self, at: usize, byte: u8) {
        if let Some(place) = self.bytes.get_mut(at) {
            *place = byte;
        }
    }

    // A number that a changed byte changes: each byte has its own weight among the last ones, and all of them are mixed in.
    pub fn digest(&self, first: u64) -> u64 {
        self.bytes.iter().fold(first, |d, &b| {
            d % 0x1_0000_0000_0000 * 257 + d / 0x1_0000_0000_0000 + u64::from(b) + 1
        })
    }
}
