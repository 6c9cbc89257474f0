//! A row of marks, held as bits in words: a mark is set, cleared or read at the cost of one word.

ghost use Rattle.std.specs.Prelude.{◌≡◌, ◌<◌, ◌≤◌, ◌↔◌, ◌*◌, ◌/◌, ◌-◌, ◌^◌, ◌++◌, [], Bool, List, true, false, length, replicate, slice_set, IsTrue, MatchOption, OnOk, OnErr};
ghost use Rattle.vmm_sys.specs.NumberSet.{IsMarked, IsFirstFrom, NoneFrom, NoneInWordFrom, IsEmptyWord, MarksWords};

use std::alloc::{AllocError, Global};
use std::marker::Model;

/// How many marks a word holds.
pub(super) const WORD: usize = 64;

#[derive(Drop)]
pub(super) struct Row {
    words: Vec<u64>,
}

impl Model for Row {
    ghost use Rattle.std.specs.Prelude.{Bool, List, ◌≤◌, ◌^◌, length};
    ghost use Rattle.vmm_sys.specs.Row.{marks_of};

    ghost Value = { List Bool };

    ghost view = { λ r. marks_of r.words.items };

    ghost invariant = { λ r. length r.words.items ≤ 2 ^ 29 };
}

impl Row {
    pub(super) fn new(alloc: Global) -> Row
        ensures { result ≡ [] }
    {
        Row {
            words: Vec::new(alloc),
        }
    }

    pub(super) fn len(&self) -> usize
        ensures len { result ≡ length self.now }
        ensures bound { result ≤ 2 ^ 35 }
    {
        self.words.len() * WORD
    }

    pub(super) fn make_words(&mut self, words: usize) -> Result<(), AllocError>
        requires { words ≤ 2 ^ 29 }
        ensures longer { OnOk result (self.new ≡ self.old ++ replicate (64 * words - length self.old) false) }
        ensures refused { OnErr result (self.new ≡ self.old) }
    {
        if words <= self.words.len() {
            return Ok(());
        }
        self.words.resize(words, 0)
    }

    pub(super) fn contains(&self, number: usize) -> bool
        requires { number < length self.now }
        ensures { IsTrue result ↔ IsMarked self.now number }
    {
        (self.words[number / WORD] >> (number % WORD)) & 1 == 1
    }

    /// Whether the row above is to be written, too: its word got its first mark, or lost its last.
    #[inline(always)]
    pub(super) fn put(&mut self, number: usize, mark: bool) -> bool
        requires { number < length self.old }
        ensures marks { self.new ≡ slice_set self.old number mark }
        ensures above { IsTrue result → (upper : List Bool) → MarksWords upper self.old → MarksWords (slice_set upper (number / 64) mark) self.new }
        ensures alone { result ≡ false → (upper : List Bool) → MarksWords upper self.old → MarksWords upper self.new }
    {
        let word = &mut self.words[number / WORD];
        let bit = 1 << (number % WORD);
        if mark {
            let was_empty = *word == 0;
            *word |= bit;
            return was_empty;
        }
        *word &= !bit;
        *word == 0
    }

    pub(super) fn first_in_word_from(&self, number: usize) -> Option<usize>
        ensures { MatchOption result (NoneInWordFrom self.now number) (λ n. IsFirstFrom self.now number n) }
    {
        let word = *self.words.get(number / WORD)?;
        let rest = word >> (number % WORD);
        if rest == 0 {
            return None;
        }
        Some(number + rest.trailing_zeros() as usize)
    }

    pub(super) fn first_in_word(&self, word: usize) -> Option<usize>
        ensures { MatchOption result (IsEmptyWord self.now word) (λ n. IsFirstFrom self.now (word * 64) n) }
    {
        let marks = *self.words.get(word)?;
        if marks == 0 {
            return None;
        }
        Some(word * WORD + marks.trailing_zeros() as usize)
    }

    pub(super) fn first_from(&self, number: usize) -> Option<usize>
        ensures { MatchOption result (NoneFrom self.now number) (λ n. IsFirstFrom self.now number n) }
    {
        let mut from = number;
        while from < self.len() {
            if let Some(n) = self.first_in_word_from(from) {
                return Some(n);
            }
            from = (from / WORD + 1) * WORD;
        }
        None
    }
}
