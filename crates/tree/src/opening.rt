// What opening a tree checks.
ghost use Rattle.std.specs.Prelude.{◌≡◌, ℕ, ◌/◌, ◌%◌, ◌<◌, ◌≤◌, List, [], ◌++◌, is_ok, Decides, MatchOption, MatchResult};
ghost use Rattle.tree.specs.Bitmaps.{AllFilledBelow, bits, Filled, Sized};
ghost use Rattle.tree.specs.Faults.{First, Hollow, TreeBreaks, tree_numbered};
ghost use Rattle.tree.specs.Held.{bits_of, cells_of, Reads};
ghost use Rattle.tree.specs.Laws.{OneTree};
ghost use Rattle.store.specs.Exact.{exact, Exactly};
ghost use Rattle.board.specs.Lists.{Has};
ghost use Rattle.tree.specs.Openings.{BitsOf, Opens};
ghost use Rattle.board.specs.Limits.{parts};

use crate::bitmaps::{BLOCK, Bits, SPACING};
use crate::directory::first_wrong;
use crate::fault::{Part, TreeFault};
use crate::height::Height;
use crate::reader::Tree;

// Have T and L the bits that their levels demand? Each level is gone over once.
fn levels_fit(t: &Bits, l: &Bits, height: Height) -> bool
    ensures { Decides result (Sized height.levels (bits_of t.now) (bits_of l.now)) }
{
    let mut end = 0usize;
    let mut ones = 0usize;
    for _level in 1..height.levels {
        let next = BLOCK + BLOCK * ones;
        if next > t.len {
            return false;
        }
        ones += t.ones_between(end, next);
        end = next;
    }
    if end != t.len {
        return false;
    }
    BLOCK + BLOCK * ones == t.len + l.len
}

// The first block that has no 1, of those from a given one on.
// Not inlined: where it stood in its callers, its loop fetched the bytes' place anew for each block.
#[inline(never)]
fn first_empty(b: &Bits, from: usize) -> Option<usize>
    ensures { MatchOption result
        ((k : ℕ) → from ≤ k → k < b.now.len / parts → Filled (bits_of b.now) k)
        (λ k. (from ≤ k) × (k < b.now.len / parts) × (Filled (bits_of b.now) k → ⊥)
        × ((j : ℕ) → from ≤ j → j < k → Filled (bits_of b.now) j)) }
{
    // By an index: with the range's own find, an opening takes half as long again and more.
    for k in from..b.len / BLOCK {
        if (b.bytes[k / 2] >> (BLOCK * (k % 2))) & 15 == 0 {
            return Some(k);
        }
    }
    None
}

// Where the first block below the first level that has no 1 begins, in T followed by L.
fn first_hollow(t: &Bits, l: &Bits) -> Option<usize>
    requires { (t.now.len % parts ≡ 0) × (l.now.len % parts ≡ 0) }
    ensures { MatchOption result
        (AllFilledBelow (bits_of t.now ++ bits_of l.now))
        (λ p. Hollow (bits_of t.now ++ bits_of l.now) p
        × ((q : ℕ) → q < p → Hollow (bits_of t.now ++ bits_of l.now) q → ⊥)) }
{
    if let Some(block) = first_empty(t, 1) {
        return Some(BLOCK * block);
    }
    let before = t.len;
    let from = if before == 0 { 1 } else { 0 };
    first_empty(l, from).map(|block| before + BLOCK * block)
}

// The parts come one by one, as `open` takes them.
// The two bitmaps of a tree that passes the checks, which come in this order.
fn check_tree<'a>(
    height: u8,
    t: &'a [u8],
    t_bits: usize,
    l: &'a [u8],
    l_bits: usize,
    counts: &[u32],
) -> Result<(Bits<'a>, Bits<'a>), TreeFault>
    ensures { MatchResult result (λ b. Opens height t.now t_bits l.now l_bits counts.now × (b.0.bytes.now ≡ t.now) × (b.0.len ≡ t_bits) × (b.1.bytes.now ≡ l.now) × (b.1.len ≡ l_bits)) (λ f. First (TreeBreaks height t.now t_bits l.now l_bits counts.now) (tree_numbered f)) }
{
    let height = Height::of(height).ok_or(TreeFault::Height)?;
    let t = Bits::of(t, t_bits).ok_or(TreeFault::Size)?;
    let l = Bits::of(l, l_bits).ok_or(TreeFault::Size)?;
    if !levels_fit(&t, &l, height) {
        return Err(TreeFault::Levels);
    }
    if let Some(place) = first_hollow(&t, &l) {
        return Err(TreeFault::EmptyBlock(place));
    }
    if !t.spares_clear() {
        return Err(TreeFault::SpareBit(Part::T));
    }
    if !l.spares_clear() {
        return Err(TreeFault::SpareBit(Part::L));
    }
    if counts.len() <= t.len / SPACING {
        return Err(TreeFault::ShortDirectory(counts.len()));
    }
    match first_wrong(&t, counts) {
        Some(count) => Err(TreeFault::WrongCount(count)),
        None => Ok((t, l)),
    }
}

impl<'a> Tree<'a> {
    // A reader that holds no cell: the tree of height 1 whose one block is 0.
    pub fn empty() -> Tree<'a>
        ensures no_cell { cells_of result ≡ [] }
    {
        Tree {
            t: Bits { bytes: &[], len: 0 },
            l: Bits {
                bytes: &[0],
                len: BLOCK,
            },
            counts: &[0],
            height: 1,
        }
    }

    // Takes over a tree from outside, once it has passed its checks; refused, the reader is as before.
    // Its parts are no struct: lent parts in a struct have two values in a clause, and each clause would say which.
    pub fn open(
        &mut self,
        height: u8,
        t: &'a [u8],
        t_bits: usize,
        l: &'a [u8],
        l_bits: usize,
        counts: &'a [u32],
    ) -> Result<(), TreeFault>
        ensures opened_or_refused { MatchResult result (λ _. Opens height t.now t_bits l.now l_bits counts.now × Reads self.new height (bits t.now t_bits) (bits l.now l_bits)) (λ f. First (TreeBreaks height t.now t_bits l.now l_bits counts.now) (tree_numbered f) × (self.new ≡ self.old)) }
        ensures accepts_the_bits_of_sets { Decides (is_ok result) ((codes : List ℕ) × BitsOf codes height t.now t_bits l.now l_bits counts.now) }
        ensures then_holds_that_set { (codes : List ℕ) → BitsOf codes height t.now t_bits l.now l_bits counts.now → (cells_of self.new ≡ codes) × Exactly (Has codes) (exact (cells_of self.new)) }
        ensures same_cells_same_bits { OneTree }
    {
        let (t, l) = check_tree(height, t, t_bits, l, l_bits, counts)?;
        self.t = t;
        self.l = l;
        self.counts = counts;
        self.height = height;
        Ok(())
    }
}
