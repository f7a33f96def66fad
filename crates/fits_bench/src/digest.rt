use byteorder::{ByteOrder, LittleEndian};
use std::io;
use std::io::Write;

/// How many words are mixed in side by side, each into its own.
const LANES: usize = 4;

/// How many bytes these words have.
const PIECE_LEN: usize = 32;

/// A digest of the bytes that are written to it, and their number. It doesn't depend on how they
/// are cut into pieces.
#[derive(Drop)]
pub struct Digest {
    words: [u64; LANES],
    // The bytes that don't fill the lanes yet.
    held: [u8; PIECE_LEN],
    held_len: usize,
    pub len: u64,
}

impl Digest {
    pub fn new() -> Digest {
        Digest {
            words: [1, 2, 3, 4],
            held: [0; PIECE_LEN],
            held_len: 0,
            len: 0,
        }
    }

    /// What came of all bytes so far.
    pub fn value(&self) -> u64 {
        let mut value = self.len;
        for word in &self.words {
            value = mixed(value, *word);
        }
        for byte in &self.held[..self.held_len.min(PIECE_LEN)] {
            value = mixed(value, u64::from(*byte));
        }
        value
    }

    // Mixes whole pieces in.
    fn mix(&mut self, pieces: &[[u8; PIECE_LEN]]) {
        let [mut a, mut b, mut c, mut d] = self.words;
        for piece in pieces {
            a = mixed(a, LittleEndian::read_u64(piece));
            b = mixed(b, LittleEndian::read_u64(&piece[8..]));
            c = mixed(c, LittleEndian::read_u64(&piece[16..]));
            d = mixed(d, LittleEndian::read_u64(&piece[24..]));
        }
        self.words = [a, b, c, d];
    }

    // Holds bytes until they fill the lanes.
    fn hold(&mut self, bytes: &[u8]) {
        for byte in bytes {
            if let Some(place) = self.held.get_mut(self.held_len) {
                *place = *byte;
            }
            self.held_len = self.held_len.wrapping_add(1);
            if self.held_len >= PIECE_LEN {
                let held = self.held;
                self.mix(&[held]);
                self.held_len = 0;
            }
        }
    }
}

// A number with a word mixed in.
fn mixed(value: u64, word: u64) -> u64 {
    (value ^ word)
        .wrapping_mul(0x9e37_79b9_7f4a_7c15)
        .rotate_left(29)
}

impl Write for Digest {
    fn write(&mut self, buf: &[u8]) -> io::Result<usize> {
        self.len = self.len.wrapping_add(buf.len() as u64);
        let missing = PIECE_LEN
            .saturating_sub(self.held_len)
            .checked_rem(PIECE_LEN)
            .unwrap_or(0);
        let (front, rest) = buf.split_at(missing.min(buf.len()));
        self.hold(front);
        let (pieces, rest) = rest.as_chunks::<PIECE_LEN>();
        self.mix(pieces);
        self.hold(rest);
        Ok(buf.len())
    }

    fn flush(&mut self) -> io::Result<()> {
        Ok(())
    }
}
