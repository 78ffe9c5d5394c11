// A walk over a term in bytes, root first, one node after the other. For each term still to come a stack has a frame, the next one on top: a number that
// says what is around it. A walk reads a node, takes what it wants of it, and goes on past it, by the number of its subterms.
#![tactic(auto)]

ghost use Rattle.std.specs.Prelude.{◌≡◌, ◌≤◌, ◌<◌, ℕ, List, [], ◌∷◌, length};
ghost use Rattle.term_walk.specs.Frames.{below, max_waits, opened, Passed, stack_of, top_of};

use numbers::{Image, Recipe};
use std::marker::Model;

// No more terms than this wait at once, for an image has at most 4,096 nodes: each term but the first was opened by a node, and each has a node of its own.
pub const MAX_WAITS: usize = Image::MAX_NODES / 2 + 1;

// Where no term nests deeper than a recipe's may: no more wait than there are nodes above the next one, and that one.
pub const MAX_NESTED: usize = Recipe::MAX_NESTING + 1;

pub fn max_waits() -> usize
    ensures { result ≡ max_waits }
{
    MAX_WAITS
}

// Past a node that was the first of `waits` terms, by the array: its frame goes, and those of its subterms come, `first` and `last`, or `last` alone.
pub fn pass(frames: &mut [u16], waits: usize, subterms: u8, first: u16, last: u16) -> usize
    requires { (0 < waits) × ((waits < length frames.old) × (subterms ≤ 2)) }
    ensures { Passed frames.old waits subterms first last frames.new result }
{
    frames[waits - 1] = last;
    frames[waits] = first;
    waits - 1 + (subterms as usize)
}

// The frames of a walk where at most N terms wait at once.
#[derive(Drop)]
pub struct Frames<const N: usize> {
    frames: [u16; N],
    waits: usize,
}

// Clauses see the frames, the next term's first.
impl<const N: usize> Model for Frames<N> {
    ghost Value = { List ℕ };

    ghost view = { λ f. stack_of f.waits f.frames };

    ghost invariant = { λ f. f.waits ≤ N };
}

impl<const N: usize> Frames<N> {
    // One term to come, with nothing around it.
    pub fn new() -> Self
        requires { 0 < N }
        ensures { result ≡ 0 ∷ [] }
    {
        Frames {
            frames: [0; N],
            waits: 1,
        }
    }

    // The same in frames that are lent.
    pub fn restart(&mut self)
        requires { 0 < N }
        ensures { self.new ≡ 0 ∷ [] }
    {
        self.frames[0] = 0;
        self.waits = 1;
    }

    // How many terms are to come.
    pub fn waits(&self) -> usize
        ensures { result ≡ length self.now }
    {
        self.waits
    }

    // The next one's frame.
    pub fn top(&self) -> u16
        requires { 0 < length self.now }
        ensures { result ≡ top_of self.now }
    {
        self.frames[self.waits - 1]
    }

    // Past its node: its frame goes, and those of its subterms come, `first` and `last`, or `last` alone.
    pub fn pass(&mut self, subterms: u8, first: u16, last: u16)
        requires { (0 < length self.old) × ((length self.old < N) × (subterms ≤ 2)) }
        ensures { self.new ≡ opened subterms first last (below self.old) }
    {
        self.waits = pass(&mut self.frames, self.waits, subterms, first, last);
    }
}
