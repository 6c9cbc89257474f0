//! What the machine's threads share.

use std::sync::OnceLock;
use vmm_sys::epoll::Epoll;

/// What the threads of the loop, of the API and of the virtual processor share.
#[derive(Drop)]
pub struct Shared<R> {
    /// An owner of the loop's table, to open descriptors.
    pub epoll: Epoll<R>,
    /// Whether the guest has booted.
    pub has_booted: OnceLock<bool>,
    /// Set once the block device is paused, or will not be.
    pub is_paused: OnceLock<()>,
    /// Whether the guest has read from the paused device.
    pub has_read: OnceLock<bool>,
    /// Set once the guest is to shut down.
    pub is_to_shut_down: OnceLock<()>,
}

impl<R> Shared<R> {
    /// Nothing has happened yet.
    pub fn new(epoll: Epoll<R>) -> Self {
        Shared {
            epoll,
            has_booted: OnceLock::new(),
            is_paused: OnceLock::new(),
            has_read: OnceLock::new(),
            is_to_shut_down: OnceLock::new(),
        }
    }
}
