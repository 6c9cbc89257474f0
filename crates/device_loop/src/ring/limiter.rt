//! The limiter of a ring: a bucket of tokens, by which alone the ring is served.

ghost use Rattle.std.specs.Prelude.{◌≡◌, ◌+◌, ◌*◌, ◌≤◌, None, length};
ghost use Rattle.std.specs.Option.{ForSome};
ghost use Rattle.device_loop.specs.Buckets.{Bucket, Pays, paused, refilled};

use crate::ring::{Ring, RingName, Served};
use crate::statistics::BlockMetrics;
use std::alloc::AllocError;
use std::marker::Model;
use std::sync::ledger::Share;

/// The tokens of a full bucket.
pub const SIZE: u64 = 4;

/// A ring's bucket: its tokens, how many were ever taken, its refills, and how many had been taken at the pause, while it is
/// paused.
#[derive(Drop)]
pub struct Limiter<Q: RingName> {
    tokens: u64,
    taken: u64,
    refills: u64,
    paused_at: Option<u64>,
    share: Share<Served<Q>>,
}

impl<Q: RingName> Model for Limiter<Q> {
    ghost Value = { Bucket };

    ghost view = { λ l. record { tokens = l.tokens; taken = l.taken; refills = l.refills; paused_at = l.paused_at } };

    // At most a bucket, and one more for each refill, was taken; none since the pause; and as many as the ring has served.
    ghost invariant = { λ l. (l.taken + l.tokens ≤ 4 + 4 * l.refills) × ForSome l.paused_at (λ count. l.taken ≡ count) × (l.share.amount ≡ l.taken) × (l.share.parts ≡ 1) };
}

impl<Q: RingName> Limiter<Q> {
    pub(crate) fn new(share: Share<Served<Q>>) -> Self
        requires { (share.amount ≡ 0) × (share.parts ≡ 1) }
        ensures { result ≡ record { tokens = 4; taken = 0; refills = 0; paused_at = None } }
    {
        Limiter {
            tokens: SIZE,
            taken: 0,
            refills: 0,
            paused_at: None,
            share,
        }
    }

    /// Serves a waiting request for each token; none while paused, or where memory is refused. A ring is served in no other way.
    pub fn serve(&mut self, ring: &mut Ring<Q>) -> Result<(), AllocError>
        ensures paid { Pays self.old self.new }
        ensures served { (length ring.old.used.items ≡ self.old.taken) × (length ring.new.used.items ≡ self.new.taken) }
        ensures queued { ring.new.available ≡ ring.old.available }
    {
        let most = match self.paused_at {
            Some(_) => 0,
            None => self.tokens,
        };
        let served = ring.serve(most, &mut self.share)?;
        self.tokens -= served;
        self.taken += served;
        Ok(())
    }

    /// Fills the bucket.
    pub fn refill(&mut self)
        ensures { self.new ≡ refilled self.old }
    {
        self.tokens = SIZE;
        self.refills = self.refills.saturating_add(1);
    }

    /// Pauses it, or lets it go on.
    pub fn set_paused(&mut self, is_paused: bool)
        ensures { self.new ≡ paused is_paused self.old }
    {
        self.paused_at = if is_paused { Some(self.taken) } else { None };
    }

    /// How many tokens had been taken when it was paused, while it is: as many as by now.
    pub fn paused_at(&self) -> Option<u64>
        ensures same { result ≡ self.now.paused_at }
        ensures rested { ForSome result (λ count. self.now.taken ≡ count) }
    {
        self.paused_at
    }

    /// What it has counted.
    pub fn metrics(&self) -> BlockMetrics
        ensures { (result.tokens ≡ self.now.tokens) × (result.served ≡ self.now.taken) × (result.refills ≡ self.now.refills) }
    {
        BlockMetrics {
            tokens: self.tokens,
            served: self.taken,
            refills: self.refills,
        }
    }

    /// The ring has served as many requests as tokens were taken, at most those of a bucket and of one more for each refill.
    pub fn agree(&mut self, ring: &mut Ring<Q>)
        ensures agreed { length ring.old.used.items ≡ self.old.taken }
        ensures limited { self.old.taken + self.old.tokens ≤ 4 + 4 * self.old.refills }
        ensures same { (self.new ≡ self.old) × (ring.new.used ≡ ring.old.used) × (ring.new.available ≡ ring.old.available) }
    {
        let _taken = self.taken;
        ring.agree(&mut self.share);
    }
}
