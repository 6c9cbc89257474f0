//! The ring that a driver and its block device share.

ghost use Rattle.std.specs.Prelude.{◌≡◌, ◌+◌, ◌-◌, take, length, min, is_ok, IfOk, OnErr, ◌++◌, ◌∷◌, [], if◌then◌else◌};

pub mod limiter;

use limiter::Limiter;
use std::alloc::{AllocError, Global};
use std::marker::{Brand, PhantomData};
use std::sync::ledger::{Blank, Book, Ledger, Share};

/// Which ring and limiter belong together: a number that only proofs see.
pub trait RingName {
    ghost use Rattle.std.specs.Prelude.{ℕ};

    ghost ring: { ℕ };
}

impl RingName for Brand {
    ghost ring = { 0 };
}

/// The ledger of the requests that were served: its ring has the book, and its limiter the one part.
pub struct Served<Q> {
    of: PhantomData<Q>,
}

impl<Q: RingName> Ledger for Served<Q> {
    ghost name = { Q.ring };

    ghost parts = { 1 };
}

/// A driver's request to read a sector.
#[derive(Clone, Copy, PartialEq, Eq, Debug)]
pub struct BlockRequest {
    /// The sector.
    pub sector: u64,
}

/// Requests in the order in which they were queued, and those that were served.
#[derive(Drop)]
pub struct Ring<Q: RingName> {
    available: Vec<BlockRequest>,
    used: Vec<BlockRequest>,
    book: Book<Served<Q>>,
    // They were served in the order in which they were queued, each once.
    ghost in_order: { used.items ≡ take (length used.items) available.items },
    ghost booked: { book.total ≡ length used.items },
}

impl<Q: RingName> Ring<Q> {
    /// An empty ring, and its limiter.
    pub fn new(alloc: Global, blank: Blank) -> (Ring<Q>, Limiter<Q>)
        requires { (blank.name ≡ Q.ring) × (blank.parts ≡ 1) }
    {
        let (book, share) = blank.open::<Served<Q>>();
        let ring = Ring {
            available: Vec::new(alloc),
            used: Vec::new(alloc),
            book,
        };
        (ring, Limiter::new(share))
    }

    /// Queues a request of the driver. Refused where memory is.
    pub fn queue(&mut self, request: BlockRequest) -> Result<(), AllocError>
        ensures served_stay { self.new.used ≡ self.old.used }
        ensures last { self.new.available.items ≡ (if is_ok result then self.old.available.items ++ request ∷ [] else self.old.available.items) }
    {
        self.available.push(request)?;
        Ok(())
    }

    // Serves up to `most` of the requests that wait, and returns how many; the limiter's share notes them.
    #[tactic(auto, using(crate::proofs::Prefix::prefix_stays))]
    fn serve(&mut self, most: u64, share: &mut Share<Served<Q>>) -> Result<u64, AllocError>
        requires { share.old.parts ≡ 1 }
        ensures agreed { share.old.amount ≡ length self.old.used.items }
        ensures noted { (share.new.amount ≡ length self.new.used.items) × (share.new.parts ≡ 1) }
        ensures served { IfOk result (λ count. (count ≡ min (length self.old.available.items - length self.old.used.items) most) × (length self.new.used.items ≡ length self.old.used.items + count)) }
        ensures none { OnErr result (self.new.used.items ≡ self.old.used.items) }
        ensures queued_stay { self.new.available ≡ self.old.available }
    {
        self.book.audit(share);
        let first = self.used.len();
        let waiting = (self.available.len() - first) as u64;
        let count = waiting.min(most);
        let to_serve = &self.available[first..first + count as usize];
        self.used.extend_from_slice(to_serve)?;
        self.book.add(share, count);
        Ok(count)
    }

    fn agree(&mut self, share: &mut Share<Served<Q>>)
        requires { share.old.parts ≡ 1 }
        ensures agreed { share.old.amount ≡ length self.old.used.items }
        ensures same { (share.new.amount ≡ share.old.amount) × (share.new.parts ≡ 1) × (self.new.used ≡ self.old.used) × (self.new.available ≡ self.old.available) }
    {
        self.book.audit(share);
    }

    /// The requests that were queued.
    pub fn available(&self) -> &[BlockRequest]
        ensures { result.now ≡ self.now.available.items }
    {
        &self.available
    }

    /// The requests that were served.
    pub fn used(&self) -> &[BlockRequest]
        ensures same { result.now ≡ self.now.used.items }
        ensures in_order { result.now ≡ take (length result.now) self.now.available.items }
    {
        &self.used
    }
}
