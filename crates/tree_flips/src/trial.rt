// One set: written, opened, read back, and each of its bits flipped.
use board::refusal::Refusal;
use board::square::Square;
use std::alloc::Global;
use store::store::{Answer, Store};
use tree::directory::fill_directory;
use tree::fault::TreeFault;
use tree::reader::Tree;
use tree::writer::write;

// How many sets were tried, and what came of them.
#[derive(Clone, Copy, Default)]
pub(crate) struct Totals {
    pub(crate) sets: u32,
    pub(crate) read_back: u32,
    pub(crate) flips: u32,
    pub(crate) refused: u32,
    pub(crate) others: u32,
}

impl Totals {
    // Counts what a flipped bit led to: the set, another one, or a refusal.
    fn flipped(&mut self, reading: Result<bool, TreeFault>) {
        self.flips = self.flips.saturating_add(1);
        match reading {
            Ok(true) => {}
            Ok(false) => self.others = self.others.saturating_add(1),
            Err(_) => self.refused = self.refused.saturating_add(1),
        }
    }
}

// Does the tree hold these cells, and no other?
fn holds_just(tree: &Tree, codes: &[u32]) -> bool {
    let held = codes.iter().all(|code| { tree.query(Square::cell(*code)) != Answer::Empty });
    held && tree.tally(Square::BOARD) == codes.len() as u64
}

// A bitmap; how many bits it has does not follow from its bytes.
#[derive(Drop)]
struct Bitmap {
    bytes: Vec<u8>,
    bits: usize,
}

impl Bitmap {
    // So many bits, in just the bytes that they need.
    fn of(mut bytes: Vec<u8>, bits: usize) -> Bitmap {
        bytes.truncate(bits.div_ceil(8));
        Bitmap { bytes, bits }
    }
}

// A set, and its bitmaps.
#[derive(Drop)]
struct Written<'a> {
    codes: &'a [u32],
    height: u8,
    t: Bitmap,
    l: Bitmap,
}

impl Written<'_> {
    // Flips one bit of a byte of T followed by L.
    fn flip(&mut self, byte: usize, bit: u8) {
        let mask = 1u8.wrapping_shl(bit as u32);
        if byte < self.t.bytes.len() {
            self.t.bytes[byte] ^= mask;
        } else if byte - self.t.bytes.len() < self.l.bytes.len() {
            let at = byte - self.t.bytes.len();
            self.l.bytes[at] ^= mask;
        }
    }

    // Opens the bitmaps: do they hold the cells that they were written from, and no other?
    fn reads_back(&self) -> Result<bool, TreeFault> {
        let mut counts = [0u32; 16];
        fill_directory(self.t.bytes.as_slice(), self.t.bits, &mut counts)?;
        let mut tree = Tree::empty();
        tree.open(
            self.height,
            self.t.bytes.as_slice(),
            self.t.bits,
            self.l.bytes.as_slice(),
            self.l.bits,
            &counts,
        )?;
        Ok(holds_just(&tree, self.codes))
    }

    // Flips each bit of a byte of T followed by L in turn.
    fn try_byte(&mut self, byte: usize, totals: &mut Totals) {
        for bit in 0..8 {
            self.flip(byte, bit);
            totals.flipped(self.reads_back());
            self.flip(byte, bit);
        }
    }
}

// Writes a set into bitmaps of just the bytes that they need.
fn write_down<'a>(heap: Global, codes: &'a [u32], height: u8) -> anyhow::Result<Written<'a>> {
    let mut t = vec![in heap; 0u8; 700]?;
    let mut l = vec![in heap; 0u8; 700]?;
    let written = write(codes, height, t.as_mut_slice(), l.as_mut_slice());
    let (t_bits, l_bits) = written.map_err(|fault| fault.numbered())?;
    Ok(Written {
        codes,
        height,
        t: Bitmap::of(t, t_bits),
        l: Bitmap::of(l, l_bits),
    })
}

// Writes a set, reads it back, and flips each bit of its bytes in turn.
pub(crate) fn try_set(
    heap: Global,
    codes: &[u32],
    height: u8,
    totals: &mut Totals,
) -> anyhow::Result<()> {
    let mut set = write_down(heap, codes, height)?;
    totals.sets = totals.sets.saturating_add(1);
    if set.reads_back() == Ok(true) {
        totals.read_back = totals.read_back.saturating_add(1);
    }
    // by number, since the bytes change while they are gone through
    for byte in 0..set.t.bytes.len().saturating_add(set.l.bytes.len()) {
        set.try_byte(byte, totals);
    }
    Ok(())
}
