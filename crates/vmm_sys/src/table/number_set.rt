//! A set of numbers below a room: a change or an ordered search costs a few words, a search of the largest room about a thousand.

ghost use Rattle.std.specs.Prelude.{◌≡◌, ◌<◌, ◌≤◌, ◌↔◌, ◌^◌, ◌++◌, [], ℕ, true, false, length, replicate, slice_set, IsTrue, MatchOption, OnOk, OnErr};
ghost use Rattle.vmm_sys.specs.NumberSet.{IsMarked, IsFirstFrom, NoneFrom, MarksWords};

mod row;

use row::{Row, WORD};
use std::alloc::{AllocError, Global};
use std::marker::Model;

#[derive(Drop)]
pub(super) struct NumberSet {
    /// A mark for each number, set for those of the set.
    numbers: Row,
    /// Marks the words of `numbers` that have a mark, as `groups` marks those of `words`, and `blocks` those of `groups`.
    words: Row,
    groups: Row,
    blocks: Row,
    /// No number of the set is below it: a search begins there.
    lowest: usize,
}

impl Model for NumberSet {
    ghost use Rattle.std.specs.Prelude.{Bool, List};
    ghost use Rattle.vmm_sys.specs.NumberSet.{AreTiers, NoneBelow};

    ghost Value = { List Bool };

    ghost view = { λ s. s.numbers };

    ghost invariant = { λ s. AreTiers s.numbers s.words s.groups s.blocks × NoneBelow s.numbers s.lowest };
}

impl NumberSet {
    pub(super) fn new(alloc: Global) -> NumberSet
        ensures { result ≡ [] }
    {
        NumberSet {
            numbers: Row::new(alloc),
            words: Row::new(alloc),
            groups: Row::new(alloc),
            blocks: Row::new(alloc),
            lowest: 0,
        }
    }

    pub(super) fn room(&self) -> usize
        ensures { result ≡ length self.now }
    {
        self.numbers.len()
    }

    pub(super) fn contains(&self, number: usize) -> bool
        requires { number < length self.now }
        ensures { IsTrue result ↔ IsMarked self.now number }
    {
        self.numbers.contains(number)
    }

    #[inline(always)]
    pub(super) fn put(&mut self, number: usize, mark: bool)
        requires { number < length self.old }
        ensures { self.new ≡ slice_set self.old number mark }
    {
        self.lowest = self.lowest.min(number);
        if !self.numbers.put(number, mark) {
            return;
        }
        let word = number / WORD;
        if !self.words.put(word, mark) {
            return;
        }
        let group = word / WORD;
        if !self.groups.put(group, mark) {
            return;
        }
        self.blocks.put(group / WORD, mark);
    }

    /// Later searches begin at the number that it finds.
    #[inline(always)]
    pub(super) fn first(&mut self) -> Option<usize>
        ensures set { self.new ≡ self.old }
        ensures first { MatchOption result (NoneFrom self.old 0) (λ n. IsFirstFrom self.old 0 n) }
    {
        let found = self.first_from(0);
        self.lowest = found.unwrap_or(self.lowest);
        found
    }

    #[inline(always)]
    pub(super) fn first_from(&self, number: usize) -> Option<usize>
        ensures { MatchOption result (NoneFrom self.now number) (λ n. IsFirstFrom self.now number n) }
    {
        self.search(number.max(self.lowest))
    }

    // As `first_from`, without a look at `lowest`.
    #[inline(always)]
    fn search(&self, number: usize) -> Option<usize>
        ensures { MatchOption result (NoneFrom self.now number) (λ n. IsFirstFrom self.now number n) }
    {
        if let Some(n) = self.numbers.first_in_word_from(number) {
            return Some(n);
        }
        let word = first_word_from(&self.words, &self.groups, &self.blocks, number / WORD + 1)?;
        self.numbers.first_in_word(word)
    }

    pub(super) fn make_room(&mut self, room: usize) -> Result<(), AllocError>
        requires { room ≤ 2 ^ 34 }
        ensures marks { OnOk result ((k : ℕ) × (self.new ≡ self.old ++ replicate k false)) }
        ensures room { OnOk result (room ≤ length self.new) }
        ensures refused { OnErr result (self.new ≡ self.old) }
    {
        let words = room / WORD + 1;
        let groups = words / WORD + 1;
        let blocks = groups / WORD + 1;
        self.blocks.make_words(blocks / WORD + 1)?;
        self.groups.make_words(blocks)?;
        self.words.make_words(groups)?;
        self.numbers.make_words(words)
    }
}

#[inline(never)]
fn first_word_from(words: &Row, groups: &Row, blocks: &Row, word: usize) -> Option<usize>
    requires groups { MarksWords groups.now words.now }
    requires blocks { MarksWords blocks.now groups.now }
    ensures { MatchOption result (NoneFrom words.now word) (λ w. IsFirstFrom words.now word w) }
{
    if let Some(w) = words.first_in_word_from(word) {
        return Some(w);
    }
    let group = first_group_from(groups, blocks, word / WORD + 1)?;
    words.first_in_word(group)
}

fn first_group_from(groups: &Row, blocks: &Row, group: usize) -> Option<usize>
    requires { MarksWords blocks.now groups.now }
    ensures { MatchOption result (NoneFrom groups.now group) (λ g. IsFirstFrom groups.now group g) }
{
    if let Some(g) = groups.first_in_word_from(group) {
        return Some(g);
    }
    let block = blocks.first_from(group / WORD + 1)?;
    groups.first_in_word(block)
}
