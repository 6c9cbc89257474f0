//! Times by index, and the first of them.

ghost use Rattle.std.specs.Prelude.{◌≡◌, ◌<◌, ◌+◌, ◌++◌, [], length, slice_set, slice_index_or, true, false, is_ok, if◌then◌else◌, MatchOption, replicate};
ghost use Rattle.std.specs.List.{All};
ghost use Rattle.timerfd.specs.DueTree.{earlier};
ghost use Rattle.timerfd.specs.Dues.{is_due, IsFirstOf};

use std::alloc::{AllocError, Global};
use std::marker::Model;

/// Times by index, where `None` is never: the leaves of a tree, which are the second half of its nodes. Node 1 is the root, below
/// node n are nodes 2 n and 2 n + 1, and each inner node has the earlier of the two below it.
#[derive(Drop)]
pub struct DueTree {
    nodes: Vec<Option<u64>>,
    leaves: usize,
}

impl Model for DueTree {
    ghost use Rattle.std.specs.Prelude.{◌≡◌, ◌*◌, ℕ, List, Option, length, drop};
    ghost use Rattle.timerfd.specs.DueTree.{IsSettledBut};

    ghost Value = { List (Option ℕ) };

    ghost view = { λ t. drop t.leaves t.nodes.items };

    ghost invariant = { λ t. (length t.nodes.items ≡ 2 * t.leaves) × IsSettledBut 0 t.nodes.items };
}

impl DueTree {
    pub fn new(alloc: Global) -> Self
        ensures { result ≡ [] }
    {
        DueTree {
            nodes: Vec::new(alloc),
            leaves: 0,
        }
    }

    pub fn len(&self) -> usize
        ensures { result ≡ length self.now }
    {
        self.leaves
    }

    /// The first of them, in constant time.
    pub fn first(&self) -> Option<u64>
        ensures { IsFirstOf self.now result }
    {
        if self.leaves == 0 {
            return None;
        }
        self.nodes[1]
    }

    pub fn due_by(&self, now: u64) -> Option<usize>
        ensures { MatchOption result (All (λ time. is_due now time ≡ false) self.now)
            (λ index. (index < length self.now) × (is_due now (slice_index_or self.now index None) ≡ true)) }
    {
        if self.leaves == 0 || !is_due(self.nodes[1], now) {
            return None;
        }
        let mut node = 1;
        while node < self.leaves {
            node = if is_due(self.nodes[2 * node], now) {
                2 * node
            } else {
                2 * node + 1
            };
        }
        Some(node - self.leaves)
    }

    pub fn set(&mut self, index: usize, time: Option<u64>)
        requires { index < length self.old }
        ensures { self.new ≡ slice_set self.old index time }
    {
        let mut node = self.leaves + index;
        self.nodes[node] = time;
        while node > 1 {
            node /= 2;
            self.nodes[node] = earlier(self.nodes[2 * node], self.nodes[2 * node + 1]);
        }
    }

    /// Adds as many times as there are, and one more, each `None`. Refused where memory is; then nothing changes.
    pub fn grow(&mut self) -> Result<(), AllocError>
        ensures { self.new ≡ if is_ok result then self.old ++ replicate (length self.old + 1) None else self.old }
    {
        let leaves = 2 * self.leaves + 1;
        let mut grown = DueTree {
            nodes: vec![in *self.nodes.allocator(); None; 2 * leaves]?,
            leaves,
        };
        for index in 0..self.leaves {
            grown.set(index, self.nodes[self.leaves + index]);
        }
        *self = grown;
        Ok(())
    }
}

fn earlier(time: Option<u64>, other: Option<u64>) -> Option<u64>
    ensures { result ≡ earlier time other }
{
    match (time, other) {
        (None, _) => other,
        (Some(_), None) => time,
        (Some(time), Some(other)) => Some(time.min(other)),
    }
}

fn is_due(time: Option<u64>, now: u64) -> bool
    ensures { result ≡ is_due now time }
{
    time.is_some_and(|time| time <= now)
}
