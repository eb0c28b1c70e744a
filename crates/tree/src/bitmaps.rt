// Bitmaps: their bits, and how many are 1.
ghost use Rattle.std.specs.Prelude.{◌≡◌, ◌+◌, ◌*◌, ◌/◌, ◌^◌, ◌<◌, ◌≤◌, length, count_ones, Decides, MatchOption};
ghost use Rattle.std.specs.List.{sum_by};
ghost use Rattle.std.specs.Int.{from_le_bytes, w64};
ghost use Rattle.tree.specs.Bitmaps.{bit};
ghost use Rattle.tree.specs.Reader.{Bitmap, Directory, ones_before, Spared};

use board::square::PARTS;

// The most bits that a bitmap may have.
pub(crate) const MOST_BITS: usize = 4_194_304;

// How many bits a block has: one for each quarter of a square.
pub(crate) const BLOCK: usize = PARTS as usize;

// How many bits of T stand between two counts of the directory.
pub(crate) const SPACING: usize = 512;

// A bitmap: its bytes, and how many bits it has.
#[derive(Clone, Copy)]
pub(crate) struct Bits<'a> {
    pub(crate) bytes: &'a [u8],
    pub(crate) len: usize,
    ghost fits: { Bitmap bytes.now len },
}

// How many bits of whole words of eight bytes are 1.
fn ones_of_words(words: &[[u8; 8]]) -> usize
    requires { length words.now ≤ 2 ^ 17 }
    ensures { result ≡ sum_by (λ w. count_ones (from_le_bytes w64 w)) words.now }
{
    words
        .iter()
        .map(|word| u64::from_le_bytes(*word).count_ones() as usize)
        .sum()
}

// How many bits of bytes are 1, byte by byte.
fn ones_of_each(bytes: &[u8]) -> usize
    requires { length bytes.now < 8 }
    ensures { result ≡ sum_by count_ones bytes.now }
{
    bytes.iter().map(|byte| byte.count_ones() as usize).sum()
}

// How many bits of bytes are 1: by words of eight bytes, then by the bytes left.
pub(crate) fn ones_of_bytes(bytes: &[u8]) -> usize
    requires { length bytes.now ≤ 2 ^ 20 }
    ensures { result ≡ ones_before bytes.now (8 * length bytes.now) }
{
    let (words, left) = bytes.as_chunks::<8>();
    ones_of_words(words) + ones_of_each(left)
}

impl<'a> Bits<'a> {
    // These bytes as a bitmap, if so many bits are not too many, and need just as many bytes.
    pub(crate) fn of(bytes: &'a [u8], len: usize) -> Option<Bits<'a>>
        ensures { MatchOption result (Bitmap bytes.now len → ⊥) (λ b. (b.bytes.now ≡ bytes.now) × (b.len ≡ len)) }
    {
        if len <= MOST_BITS && bytes.len() == len.div_ceil(8) {
            Some(Bits { bytes, len })
        } else {
            None
        }
    }

    // Is the bit at this place 1?
    pub(crate) fn is_set(&self, place: usize) -> bool
        requires { place < self.now.len }
        ensures { result ≡ bit self.now.bytes.now place }
    {
        (self.bytes[place / 8] >> (place % 8)) & 1 == 1
    }

    // Are all bits behind the last 0?
    pub(crate) fn spares_clear(&self) -> bool
        ensures { Decides result (Spared self.now.bytes.now self.now.len) }
    {
        self.len % 8 == 0 || self.bytes[self.len / 8] >> (self.len % 8) == 0
    }

    // How many bits of the byte that the first n bits end in are 1, of those n.
    fn ones_of_part(&self, n: usize) -> usize
        requires { n ≤ self.now.len }
        ensures { ones_before self.now.bytes.now (8 * (n / 8)) + result ≡ ones_before self.now.bytes.now n }
    {
        let left = n % 8;
        if left == 0 {
            return 0;
        }
        (self.bytes[n / 8] & ((1 << left) - 1)).count_ones() as usize
    }

    // How many bits are 1, from one place up to another.
    pub(crate) fn ones_between(&self, from: usize, to: usize) -> usize
        requires { (from ≤ to) × (to ≤ self.now.len) }
        ensures { ones_before self.now.bytes.now from + result ≡ ones_before self.now.bytes.now to }
    {
        ones_of_bytes(&self.bytes[from / 8..to / 8]) + self.ones_of_part(to)
            - self.ones_of_part(from)
    }

    // How many of the first n bits are 1: the count of the whole parts of 512 bits, then what is left.
    pub(crate) fn rank(&self, counts: &[u32], n: usize) -> usize
        requires inside { n ≤ self.now.len }
        requires directory { Directory self.now.bytes.now self.now.len counts.now }
        ensures { result ≡ ones_before self.now.bytes.now n }
    {
        let part = n / SPACING;
        counts[part] as usize + self.ones_between(SPACING * part, n)
    }
}
