//! What came of the block device.

ghost use Rattle.std.specs.Prelude.{◌≡◌, IfOk, length};
ghost use Rattle.device_loop.specs.Runs.{IsServedInOrder};

use crate::block::Block;
use crate::ring::{BlockRequest, Ring, RingName};
use event_manager::Result;
use std::alloc::Global;
use std::fmt;
use std::marker::{Model, PhantomData};

/// What was queued, what was served, how often the bucket was filled, and, if paused in the end, how many were served by then.
#[derive(Drop)]
pub struct BlockReport<Q: RingName> {
    queued: Vec<BlockRequest>,
    served: Vec<BlockRequest>,
    refills: u64,
    paused_at: Option<u64>,
    of: PhantomData<Q>,
}

impl<Q: RingName> Model for BlockReport<Q> {
    ghost use Rattle.device_loop.specs.Runs.{Report};

    ghost Value = { Report };

    ghost view = { λ r. record { queued = r.queued.items; served = r.served.items; refills = r.refills; paused_at = r.paused_at } };
}

impl<Q: RingName> BlockReport<Q> {
    /// The report of a device and its ring.
    pub fn new<R: Drop>(block: Block<Q, R>, ring: &mut Ring<Q>, alloc: Global) -> Result<Self>
        ensures ring { IfOk result (λ report. (report.queued ≡ ring.old.available.items) × (report.served ≡ ring.old.used.items)) }
        ensures block { IfOk result (λ report. (length report.served ≡ block.limiter.taken) × (report.refills ≡ block.limiter.refills) × (report.paused_at ≡ block.limiter.paused_at)) }
        ensures served { IfOk result IsServedInOrder }
    {
        let mut limiter = block.into_limiter();
        limiter.agree(ring);
        Ok(BlockReport {
            queued: copy(ring.available(), alloc)?,
            served: copy(ring.used(), alloc)?,
            refills: limiter.metrics().refills,
            paused_at: limiter.paused_at(),
            of: PhantomData,
        })
    }
}

fn copy(requests: &[BlockRequest], alloc: Global) -> Result<Vec<BlockRequest>>
    ensures { IfOk result (λ copied. copied.items ≡ requests.now) }
{
    let mut copied = Vec::new(alloc);
    copied.extend_from_slice(requests)?;
    Ok(copied)
}

impl<Q: RingName> fmt::Display for BlockReport<Q> {
    fn fmt<W: fmt::Write>(&self, f: &mut fmt::Formatter<W>) -> fmt::Result {
        write!(f, "{} requests queued, sectors read:", self.queued.len())?;
        for request in &self.served {
            write!(f, " {}", request.sector)?;
        }
        write!(f, "; refills: {}", self.refills)?;
        match self.paused_at {
            Some(count) => write!(f, "; paused after {count}"),
            None => Ok(()),
        }
    }
}
