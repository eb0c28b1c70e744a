// The directory: how many ones of T stand before each 512th bit.
ghost use Rattle.std.specs.Prelude.{◌≡◌, ℕ, ◌+◌, ◌*◌, ◌/◌, ◌<◌, ◌≤◌, length, MatchOption, MatchResult, ◌≢◌, slice_index};
ghost use Rattle.tree.specs.Faults.{DirectoryBreaks, First, tree_numbered};
ghost use Rattle.tree.specs.Reader.{Bitmap, Directory, ones_before, spacing};

use crate::bitmaps::{Bits, SPACING, ones_of_bytes};
use crate::fault::TreeFault;

// How many bytes of T stand between two counts.
const STEP: usize = SPACING / 8;

// How many bits are 1 between one count and the next. By the number of the part, since a last part may be short and has no count.
fn ones_of_step(t: &Bits, part: usize) -> usize
    requires { part < t.now.len / spacing }
    ensures { ones_before t.now.bytes.now (spacing * part) + result ≡ ones_before t.now.bytes.now (spacing * (part + 1)) }
{
    ones_of_bytes(&t.bytes[STEP * part..STEP * part + STEP])
}

// Fills a directory that is long enough.
fn fill_counts(t: &Bits, counts: &mut [u32])
    requires { t.now.len / spacing < length counts.old }
    ensures directory { Directory t.now.bytes.now t.now.len counts.new }
    ensures kept { (j : ℕ) → t.now.len / spacing < j → slice_index counts.new j ≡ slice_index counts.old j }
{
    let mut total = 0usize;
    counts[0] = 0;
    for (part, count) in counts[1..=t.len / SPACING].iter_mut().enumerate() {
        total += ones_of_step(t, part);
        *count = total as u32;
    }
}

// Fills the directory of T. Counts behind those that it needs keep their contents.
pub fn fill_directory(t: &[u8], t_bits: usize, counts: &mut [u32]) -> Result<(), TreeFault>
    ensures filled_or_refused { MatchResult result (λ _. Bitmap t.now t_bits × Directory t.now t_bits counts.new) (λ f. First (DirectoryBreaks t.now t_bits counts.old) (tree_numbered f) × (counts.new ≡ counts.old)) }
    ensures kept_behind { (j : ℕ) → t_bits / spacing < j → slice_index counts.new j ≡ slice_index counts.old j }
{
    let t = Bits::of(t, t_bits).ok_or(TreeFault::Size)?;
    if counts.len() <= t.len / SPACING {
        return Err(TreeFault::ShortDirectory(counts.len()));
    }
    fill_counts(&t, counts);
    Ok(())
}

// The first count that is wrong, in a directory that is long enough.
pub(crate) fn first_wrong(t: &Bits, counts: &[u32]) -> Option<usize>
    requires { t.now.len / spacing < length counts.now }
    ensures { MatchOption result
        (Directory t.now.bytes.now t.now.len counts.now)
        (λ j. (j ≤ t.now.len / spacing) × (slice_index counts.now j ≢ ones_before t.now.bytes.now (spacing * j))
        × ((i : ℕ) → i < j → slice_index counts.now i ≡ ones_before t.now.bytes.now (spacing * i))) }
{
    if counts[0] != 0 {
        return Some(0);
    }
    let mut total = 0usize;
    for (part, count) in counts[1..=t.len / SPACING].iter().enumerate() {
        total += ones_of_step(t, part);
        if *count as usize != total {
            return Some(part + 1);
        }
    }
    None
}
