//! A list that only clauses see.

ghost use Rattle.std.specs.Prelude.{◌≡◌, ◌++◌, ◌∷◌, List, [], drop};
ghost use Rattle.std.specs.Borrow.{ftrue};

use std::marker::{Model, PhantomData};
use std::snapshot::Snapshot;

/// A list that only clauses see: it takes neither bytes nor memory. A subscriber may keep one, of what it has sent, or was given.
#[derive(Drop)]
pub struct History<T> {
    of: PhantomData<T>,
    /// Its values, in order.
    pub ghost items: { List T },
}

impl<T> Model for History<T> {
    ghost also_owns = { λ _. ftrue };
}

// It owns nothing, so it may go to another thread.
unsafe impl<T> Send for History<T> {}

#[derive(Drop)]
pub(crate) enum Entries<T> {
    Empty,
    More(Snapshot<History<T>>, Snapshot<T>),
    // Those of a list from an index on.
    Rest(Snapshot<History<T>>, Snapshot<Vec<T>>, Snapshot<usize>),
}

impl<T> History<T> {
    ghost use Rattle.channels.specs.History.{items_of};

    /// The empty list.
    pub fn new() -> Self
        ensures { result.items ≡ [] }
    {
        History::of(&Entries::Empty)
    }

    /// Puts a value last.
    pub fn push(&mut self, value: Snapshot<T>)
        ensures { self.new.items ≡ self.old.items ++ value.value ∷ [] }
    {
        let before = Snapshot::of(&*self);
        *self = History::of(&Entries::More(before, value));
    }

    /// Puts last what a list has from an index on.
    pub fn push_rest(&mut self, list: &Vec<T>, from: usize)
        ensures { self.new.items ≡ self.old.items ++ drop from list.now.items }
    {
        let before = Snapshot::of(&*self);
        *self = History::of(&Entries::Rest(before, Snapshot::of(list), Snapshot::of(&from)));
    }

    fn of(entries: &Entries<T>) -> Self
        ensures { result.items ≡ items_of entries.now }
    {
        let _ = entries;
        History { of: PhantomData }
    }
}
