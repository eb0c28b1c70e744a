// A round through a list of codes.
ghost use Rattle.std.specs.Prelude.{◌≡◌, ◌≤◌, ◌++◌, drop, false, length, take};
ghost use Rattle.std.specs.Iterator.{item_count};
ghost use Rattle.scan.specs.Rounds.{meets, to_come};

use std::iter::Chain;
use std::slice::Iter;

// The codes that are still to come, from the front and from the back by turns.
#[derive(Drop)]
pub(crate) struct Round<'a> {
    codes: Chain<Iter<'a, u32>, Iter<'a, u32>>,
    // whether the last code came from the front
    ahead: bool,
}

impl<'a> Round<'a> {
    // The codes of the list from this place on, and around.
    pub(crate) fn of(list: &'a [u32], start: usize) -> Round<'a>
        requires { start ≤ length list.now }
        ensures from_here_and_around { to_come result ≡ drop start list.now ++ take start list.now }
        ensures front_first { result.ahead ≡ false }
    {
        let (before, after) = list.split_at(start);
        Round {
            codes: after.iter().chain(before),
            ahead: false,
        }
    }
}

impl<'a> Iterator for Round<'a> {
    type Item = &'a u32;

    ghost next_gives = { meets };

    ghost remaining = { item_count to_come };

    fn next(&mut self) -> Option<&'a u32> {
        self.ahead = !self.ahead;
        if self.ahead {
            self.codes.next()
        } else {
            self.codes.next_back()
        }
    }
}
