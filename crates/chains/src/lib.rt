// Chains through a table, so that the entries of one key are found without going through all. Which of 1,024 chains an entry is in depends on its key: keys may
// meet in a chain, which costs time alone. A link is one more than the entry that it leads to, always a lower one; 0 is the end. By hand: memory is fixed, so that links
// are indices and not boxes; a link takes half the bytes of an `Option` of it. `h < 1024` and `i < 1024` are asked for a chain and an entry, which callers have by a hash and in a
// loop: a type of each would be made at each call, and for that call alone.
#![tactic(auto)]

#[cfg(test)]
mod tests;

ghost use Rattle.std.specs.Prelude.{◌≡◌, List, ℕ, ◌+◌, ◌≤◌, ◌<◌, get_or, replicate, set};
ghost use Rattle.std.specs.Iterator.{YieldsFirst, item_count};
ghost use Rattle.chains.specs.Entries.{entries, left, link_of};
ghost use Rattle.chains.specs.Falling.{falling, falling_below, link_to};

use std::marker::Model;

// Where each of the 1,024 chains begins, at its last entry, and where each entry's chain goes on.
#[derive(Clone, Copy)]
pub struct Chains {
    pub heads: [u16; 1024],
    pub next: [u16; 1024],
}

impl Chains {
    // Chains without an entry.
    pub const fn new() -> Chains
        ensures heads { result.heads ≡ replicate 1024 0 }
        ensures next { result.next ≡ replicate 1024 0 }
    {
        Chains {
            heads: [0; 1024],
            next: [0; 1024],
        }
    }

    // Entry i put into chain h, before those that are there.
    pub fn put(&mut self, h: usize, i: usize)
        requires { (h < 1024) × (i < 1024) }
        ensures { self.new ≡ record { heads = set self.old.heads h (i + 1); next = set self.old.next i (get_or self.old.heads h 0) } }
    {
        self.next[i] = self.heads[h];
        self.heads[h] = (i as u16) + 1;
    }

    // The entries of chain h, the last first.
    pub fn chain(&self, h: usize) -> Chain<'_>
        requires { h < 1024 }
        ensures { result ≡ entries self.now.next (get_or self.now.heads h 0) }
    {
        Chain {
            next: &self.next,
            link: self.heads[h],
            passed: false,
        }
    }

    // Those of the chain of entry i that come behind it.
    pub fn before(&self, i: usize) -> Chain<'_>
        requires { i < 1024 }
        ensures { result ≡ entries self.now.next (get_or self.now.next i 0) }
    {
        Chain {
            next: &self.next,
            link: self.next[i],
            passed: false,
        }
    }

    // The entries of chain h, the last first, as long as its links fall; a walk takes less time so.
    pub fn falling(&self, h: usize) -> Falling<'_>
        requires { h < 1024 }
        ensures { result ≡ falling self.now.next (get_or self.now.heads h 0) }
    {
        Falling::at(&self.next, self.heads[h], 1024)
    }

    // Those of the chain of entry i that come behind it, as long as its links fall.
    pub fn falling_before(&self, i: usize) -> Falling<'_>
        requires { i < 1024 }
        ensures { result ≡ falling self.now.next (get_or self.now.next i 0) }
    {
        Falling::at(&self.next, self.next[i], 1024)
    }
}

// The entry that a link leads to; link 0 is the end of a chain.
pub fn entry(link: u16) -> Option<usize>
    ensures { link_of result ≡ link }
{
    usize::from(link).checked_sub(1)
}

// What is left of a chain: seen as the list of its entries.
#[derive(Drop)]
pub struct Chain<'a> {
    next: &'a [u16; 1024],
    link: u16,
    // whether the entry that the link leads to is passed: its own link is looked at only when the entry behind it is asked for
    passed: bool,
}

impl<'a> Model for Chain<'a> {
    ghost Value = { List ℕ };

    ghost view = { λ s. left s.next.now s.link s.passed };
}

// A link that leads no lower than its own entry counts as one to the next lower entry, so that every chain ends.
impl Iterator for Chain<'_> {
    type Item = usize;

    ghost next_gives = { YieldsFirst (λ s. s) };

    ghost remaining = { item_count (λ s. s) };

    fn next(&mut self) -> Option<usize> {
        let next = self.next;
        if self.passed {
            let link = *next.get(entry(self.link)?)?;
            self.link = link.min(self.link - 1);
        }
        self.passed = true;
        let i = entry(self.link)?;
        next.get(i).and(Some(i))
    }
}

// What is left of a chain whose links fall: seen as the list of its entries. By hand: a flag beside the entry to come, which an `Option` of it has, too; but a walk would wait for the
// comparison then (tried: 1.7 times as long on a long chain of frames, 1.4 on one of ranges).
#[derive(Drop)]
pub struct Falling<'a> {
    next: &'a [u16; 1024],
    entry: usize,
    more: bool,
    ghost inside: { link_to more entry ≤ 1024 },
}

impl<'a> Falling<'a> {
    // The entries below `end`, from a link on.
    fn at(next: &'a [u16; 1024], link: u16, end: usize) -> Falling<'a>
        requires { end ≤ 1024 }
        ensures { result ≡ falling_below next.now end link }
    {
        // link 0 wraps, to an entry that there is not: one test tells both
        let entry = usize::from(link).wrapping_sub(1);
        Falling {
            next,
            entry,
            more: entry < end,
        }
    }
}

impl<'a> Model for Falling<'a> {
    ghost Value = { List ℕ };

    ghost view = { λ s. falling s.next.now (link_to s.more s.entry) };
}

// A link that leads no lower than its own entry leads to none, so that every chain ends.
impl Iterator for Falling<'_> {
    type Item = usize;

    ghost next_gives = { YieldsFirst (λ s. s) };

    ghost remaining = { item_count (λ s. s) };

    fn next(&mut self) -> Option<usize> {
        if !self.more {
            return None;
        }
        let i = self.entry;
        *self = Falling::at(self.next, self.next[i], i);
        Some(i)
    }
}
