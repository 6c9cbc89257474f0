//! The machine: the loop with its devices, and the threads beside it.

ghost use Rattle.std.specs.Prelude.{◌≡◌, ℕ, IfOk, Some};
ghost use Rattle.std.specs.FinMap.{get};
ghost use Rattle.event_loop.specs.declared.wrappers.Either.TheVariants.{First, Second};

use crate::api::{ApiRequest, Device};
use crate::block::Block;
use crate::client::{Client, Endpoint};
use crate::fault::Fault;
use crate::net::Net;
use crate::ring::limiter::Limiter;
use crate::ring::{Ring, RingName};
use crate::shared::Shared;
use crate::vcpu::{BlockDriver, Vcpu};
use crate::vmm::Vmm;
use event_manager::{
    Either, Error, EventPoller, JobSender, Locked, LoopWithSenders, NamedCounter, Result, Senders,
    SubscriberId, Subscribers, TrackedManager,
};
use std::alloc::Global;
use std::sync::{Arc, Mutex, Wait};
use std::time::Clock;
use vmm_sys::eventfd::EventFd;
use vmm_sys::line::Line;

/// A thread beside the loop.
#[derive(Drop)]
pub enum Thread<'a, Q: RingName, R> {
    /// That of the API.
    Api(Client<'a, R>),
    /// That of a virtual processor.
    Vcpu(Vcpu<'a, Q, R>),
}

impl<Q: RingName, R: Wait + Clock + Print + Copy + Drop> JobSender<
    Device<Q, R>,
    ApiRequest<Q, R>,
    std::result::Result<(), Fault>,
    R,
> for Thread<'_, Q, R> {
    fn send<N: NamedCounter>(
        self,
        endpoint: &Endpoint<Q, N, R>,
        rt: &R,
    ) -> std::result::Result<(), Fault> {
        match self {
            Thread::Api(client) => client.run(endpoint, rt),
            Thread::Vcpu(vcpu) => vcpu.run(rt),
        }
    }
}

/// The loop's side of the machine.
#[derive(Drop)]
pub struct Machine<'a, Q: RingName, R> {
    shared: &'a Shared<R>,
    // The ring of the block device, and its limiter until the device has it.
    ring: Arc<Mutex<Ring<Q>>>,
    limiter: Option<Limiter<Q>>,
    vmm: Option<SubscriberId>,
    block: Option<SubscriberId>,
    has_exited: bool,
}

type Loop<Q, N, R, P> = TrackedManager<Device<Q, R>, ApiRequest<Q, R>, N, P>;

impl<'a, Q: RingName, R: Wait + Drop> Machine<'a, Q, R> {
    /// A machine without devices.
    pub fn new(shared: &'a Shared<R>, ring: Arc<Mutex<Ring<Q>>>, limiter: Limiter<Q>) -> Self {
        Machine {
            shared,
            ring,
            limiter: Some(limiter),
            vmm: None,
            block: None,
            has_exited: false,
        }
    }

    /// Takes the block device out of the subscribers that the loop held in the end. `InvalidId`: it isn't there.
    pub fn take_block(&self, subscribers: &mut Subscribers<Device<Q, R>>) -> Result<Block<Q, R>>
        ensures { IfOk result (λ block. (id : ℕ) × (get subscribers.old id ≡ Some (Second (Second (First block))))) }
    {
        let id = self.block.ok_or(Error::InvalidId)?;
        match subscribers.remove(id) {
            Some(Either::Second(Either::Second(Either::First(block)))) => Ok(block),
            _ => Err(Error::InvalidId),
        }
    }

    /// Whether the exit event has ended the loop.
    pub fn has_exited(&self) -> bool {
        self.has_exited
    }

    fn is_to_end<N: NamedCounter, P: EventPoller>(
        &self,
        manager: &Loop<Q, N, R, P>,
    ) -> Result<bool> {
        let Some(vmm) = self.vmm else {
            return Ok(false);
        };
        match manager.subscriber(vmm)? {
            Either::Second(Either::Second(Either::Second(vmm))) => vmm.has_exited(),
            _ => Ok(false),
        }
    }
}

// The network device, for its driver and the other end of its tap.
#[derive(Drop)]
struct NetEnds<R> {
    id: SubscriberId,
    net: Arc<Locked<Net<R>, R>>,
    queue: EventFd,
    tap: Line,
}

// The block device, for its driver and what fills its bucket.
#[derive(Drop)]
struct BlockEnds {
    id: SubscriberId,
    queue: EventFd,
    refill: EventFd,
}

impl<Q: RingName, R: Wait + Clock + Copy + Drop> Machine<'_, Q, R> {
    fn add_vmm<N: NamedCounter, P: EventPoller>(
        &mut self,
        manager: &mut Loop<Q, N, R, P>,
        rt: &R,
    ) -> Result<EventFd> {
        let vmm = Vmm::new(&self.shared.epoll, *rt).map_err(Error::EventFd)?;
        let exit = vmm.exit.try_clone().map_err(Error::EventFd)?;
        let device = Either::Second(Either::Second(Either::Second(vmm)));
        self.vmm = Some(manager.add_subscriber(device)?);
        Ok(exit)
    }

    fn add_net<N: NamedCounter, P: EventPoller>(
        &self,
        manager: &mut Loop<Q, N, R, P>,
        alloc: Global,
        rt: &R,
    ) -> Result<NetEnds<R>> {
        let net = Net::new(&self.shared.epoll, *rt).map_err(Error::EventFd)?;
        let (queue, tap) = (
            net.queue.try_clone().map_err(Error::EventFd)?,
            net.tap.try_clone().map_err(Error::EventFd)?,
        );
        let net = Arc::new(alloc, Locked::new(net, *rt))?;
        let id = manager.add_subscriber(Either::First(Arc::try_clone(&net)?))?;
        Ok(NetEnds {
            id,
            net,
            queue,
            tap,
        })
    }

    fn add_block<N: NamedCounter, P: EventPoller>(
        &mut self,
        manager: &mut Loop<Q, N, R, P>,
        rt: &R,
    ) -> Result<BlockEnds> {
        let limiter = self.limiter.take().ok_or(Error::InvalidId)?;
        let ring = Arc::try_clone(&self.ring)?;
        let block = Block::new(&self.shared.epoll, ring, limiter, *rt).map_err(Error::EventFd)?;
        let (queue, refill) = (
            block.queue.try_clone().map_err(Error::EventFd)?,
            block.refill.try_clone().map_err(Error::EventFd)?,
        );
        let device = Either::Second(Either::Second(Either::First(block)));
        let id = manager.add_subscriber(device)?;
        self.block = Some(id);
        Ok(BlockEnds { id, queue, refill })
    }

    // Runs until the exit event is served; or until all threads have ended, and what they wrote was served.
    fn serve<N: NamedCounter, P: EventPoller>(
        &mut self,
        rt: &R,
        manager: &mut Loop<Q, N, R, P>,
        senders: &Senders,
    ) -> Result<()> {
        for _run in rt.forever() {
            let have_ended = senders.have_ended();
            manager.run_with_timeout(if have_ended { 0 } else { -1 }, rt)?;
            self.has_exited = self.is_to_end(manager)?;
            if self.has_exited || have_ended {
                break;
            }
        }
        Ok(())
    }
}

impl<'a, Q: RingName, R: Wait + Clock + Print + Copy + Send + Drop> LoopWithSenders<
    Device<Q, R>,
    ApiRequest<Q, R>,
    Thread<'a, Q, R>,
    R,
> for Machine<'a, Q, R> {
    fn begin<N: NamedCounter, P: EventPoller>(
        &mut self,
        rt: &R,
        alloc: Global,
        manager: &mut Loop<Q, N, R, P>,
    ) -> Result<Vec<Thread<'a, Q, R>>> {
        let exit = self.add_vmm(manager, rt)?;
        let net = self.add_net(manager, alloc, rt)?;
        let block = self.add_block(manager, rt)?;
        let shared = self.shared;
        let client = Client {
            net: net.id,
            tap: net.tap,
            block: block.id,
            refill: block.refill,
            shared,
        };
        let vcpu = Vcpu {
            net: net.net,
            queue: net.queue,
            block: BlockDriver {
                ring: Arc::try_clone(&self.ring)?,
                queue: block.queue,
            },
            exit,
            shared,
        };
        let mut threads = Vec::new(alloc);
        for thread in [Thread::Api(client), Thread::Vcpu(vcpu)] {
            match threads.push(thread) {
                Ok(()) => {}
                Err(_refused) => return Err(Error::OutOfMemory),
            }
        }
        Ok(threads)
    }

    fn run<N: NamedCounter, P: EventPoller>(
        &mut self,
        rt: &R,
        manager: &mut Loop<Q, N, R, P>,
        senders: &Senders,
    ) -> Result<()> {
        self.serve(rt, manager, senders)
    }
}
