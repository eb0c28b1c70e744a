// A waiting list over lent memory: entries wait in a heap in the first places, and leave first in order.
ghost use Rattle.std.specs.Prelude.{◌≡◌, ◌+◌, ◌≤◌, [], length, if◌then◌else◌, MatchOption};

mod heap;

use self::heap::{pull, put};

// The order of the entries is that of their type; it is kept by the calls, and not by this type.
// The places are lent, so that they may lie anywhere and nothing is allocated; hence a slice and a count.
#[derive(Drop)]
pub struct WaitingList<'a, T> {
    places: &'a mut [T],
    count: usize,
    ghost fits: { count ≤ length places.now },
}

impl<'a, T> WaitingList<'a, T> {
    ghost use Rattle.search.specs.WaitingLists.{waiting, room};

    // The entries that wait.
    fn entries(&self) -> &[T]
        ensures { result.now ≡ waiting self.now }
    {
        &self.places[..self.count]
    }

    // How many entries wait.
    pub fn len(&self) -> usize
        ensures waiting_entries { result ≡ length (waiting self.now) }
        ensures within_room { result ≤ room self.now }
    {
        self.entries().len()
    }

    // How many more entries there are places for.
    pub fn free(&self) -> usize
        ensures free_places { result + length (waiting self.now) ≡ room self.now }
    {
        self.capacity() - self.len()
    }

    // How many entries there are places for.
    pub fn capacity(&self) -> usize
        ensures all_places { result ≡ room self.now }
    {
        self.places.len()
    }
}

impl<'a, T: Ord + Copy> WaitingList<'a, T> {
    ghost use Rattle.search.specs.WaitingLists.{waiting, room, Ready, Added, Shown, Taken};

    // A list in these places, in which nothing waits.
    pub fn new(places: &'a mut [T]) -> WaitingList<'a, T>
        ensures nothing_waits { waiting result ≡ [] }
        ensures in_order { Ready T.Ord.cmp result }
        ensures all_places { room result ≡ length places.old }
    {
        WaitingList { places, count: 0 }
    }

    // Lets all entries go.
    pub fn clear(&mut self)
        ensures nothing_waits { waiting self.new ≡ [] }
        ensures in_order { Ready T.Ord.cmp self.new }
        ensures same_room { room self.new ≡ room self.old }
    {
        self.count = 0;
    }

    // Adds x; false where no place is free.
    pub fn add(&mut self, x: T) -> bool
        ensures gains_or_full { Added T.Ord.cmp self.old x result self.new }
        ensures one_more { length (waiting self.new) ≡ (if result then length (waiting self.old) + 1 else length (waiting self.old)) }
        ensures same_room { room self.new ≡ room self.old }
    {
        if self.free() == 0 {
            return false;
        }
        put(self.places, self.count, x);
        self.count += 1;
        true
    }

    // The first in order, which goes on waiting; none where nothing waits.
    pub fn first(&self) -> Option<T>
        ensures first_or_none { Shown T.Ord.cmp self.now result }
    {
        let first = self.entries().first()?;
        Some(*first)
    }

    // Takes the first in order, and frees its place; none where nothing waits.
    pub fn take(&mut self) -> Option<T>
        ensures loses_first_or_none { Taken T.Ord.cmp self.old result self.new }
        ensures one_less { MatchOption result (length (waiting self.old) ≡ 0) (λ _. length (waiting self.new) + 1 ≡ length (waiting self.old)) }
        ensures same_room { room self.new ≡ room self.old }
    {
        let left = self.count.checked_sub(1)?;
        let x = pull(self.places, self.count);
        self.count = left;
        Some(x)
    }
}
