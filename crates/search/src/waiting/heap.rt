// A heap in the first places of a slice, whose first entry is at place 0 and whose parents are at (i - 1) / 2.
// std's BinaryHeap owns a Vec; here the places are lent. A heap goes by places, since parents and children are no neighbours in the slice.
ghost use Rattle.std.specs.Prelude.{◌≡◌, ◌+◌, ◌-◌, ◌*◌, ◌<◌, ◌≤◌, ◌∷◌, length, take};
ghost use Rattle.std.specs.BinaryHeap.Sift.{ComparesAt, IsGreaterChild, SiftsUp, SiftsDown};
ghost use Rattle.std.specs.List.Sorted.{IsPermutation};
ghost use Rattle.std.specs.Ordering.{flip_args};
ghost use Rattle.search.specs.WaitingLists.{Stays, Drawn};

// Whether the entry at a comes before the one at b.
fn comes_before<T: Ord>(s: &[T], a: usize, b: usize) -> bool
    requires { (a < length s.now) × (b < length s.now) }
    ensures { ComparesAt (flip_args T.Ord.cmp) s.now b a result }
{
    s[a] < s[b]
}

// Moves the entry at `at` up, past the parents that it comes before.
fn sift_up<T: Ord>(s: &mut [T], mut at: usize)
    requires { at < length s.old }
    ensures shuffled { IsPermutation s.old s.new }
    ensures rises { SiftsUp (flip_args T.Ord.cmp) s.old at s.new }
{
    while 0 < at && comes_before(s, at, (at - 1) / 2) {
        s.swap((at - 1) / 2, at);
        at = (at - 1) / 2;
    }
}

// The child of `at` that comes first.
fn first_child<T: Ord>(s: &[T], at: usize) -> usize
    requires { at * 2 + 1 < length s.now }
    ensures bound { (result < length s.now) × (at * 2 + 1 ≤ result) × (result ≤ at * 2 + 2) }
    ensures best { IsGreaterChild (flip_args T.Ord.cmp) s.now at result (length s.now) }
{
    let left = at * 2 + 1;
    if s.len() <= left + 1 {
        return left;
    }
    if comes_before(s, left, left + 1) {
        return left;
    }
    left + 1
}

// Moves the entry at the first place down, past the children that come before it.
fn sift_down<T: Ord>(s: &mut [T])
    ensures shuffled { IsPermutation s.old s.new }
    ensures sinks { SiftsDown (flip_args T.Ord.cmp) s.old 0 (length s.old) s.new }
{
    let mut at = 0;
    while at < s.len() / 2 {
        let child = first_child(s, at);
        if !comes_before(s, child, at) {
            return;
        }
        s.swap(at, child);
        at = child;
    }
}

// Adds x to the first n.
pub(crate) fn put<T: Ord + Copy>(s: &mut [T], n: usize, x: T)
    requires { n < length s.old }
    ensures gained { IsPermutation (x ∷ take n s.old) (take (n + 1) s.new) }
    ensures heap { Stays T.Ord.cmp (take n s.old) (take (n + 1) s.new) }
{
    s[n] = x;
    sift_up(&mut s[0..n + 1], n);
}

// Takes the first out of the first n.
pub(crate) fn pull<T: Ord + Copy>(s: &mut [T], n: usize) -> T
    requires { (0 < n) × (n ≤ length s.old) }
    ensures lost { IsPermutation (take n s.old) (result ∷ take (n - 1) s.new) }
    ensures heap { Drawn T.Ord.cmp (take n s.old) result (take (n - 1) s.new) }
{
    let x = s[0];
    let last = n - 1;
    s[0] = s[last];
    sift_down(&mut s[0..last]);
    x
}
