//! What the counting subscribers keep beside their counts: numbers up to `u64::MAX`, and the first refusal.

ghost use Rattle.std.specs.Prelude.{◌≡◌};
ghost use Rattle.event_loop.specs.CounterEvents.{nothing_observed, with_error, with_spurious, with_hang_up, with_fault, with_first_fault};

use crate::error::{Error, Result};
use crate::events::RefusedRequest;

#[derive(Clone, Copy)]
pub(super) struct Observations {
    pub(super) errors: u64,
    pub(super) spurious: u64,
    pub(super) hung_up: bool,
    pub(super) fault: Option<Error>,
}

impl Observations {
    pub(super) fn new() -> Self
        ensures { result ≡ nothing_observed }
    {
        Observations {
            errors: 0,
            spurious: 0,
            hung_up: false,
            fault: None,
        }
    }

    pub(super) fn count_error(&mut self)
        ensures { self.new ≡ with_error self.old }
    {
        self.errors = self.errors.saturating_add(1);
    }

    pub(super) fn count_spurious(&mut self)
        ensures { self.new ≡ with_spurious self.old }
    {
        self.spurious = self.spurious.saturating_add(1);
    }

    pub(super) fn hang_up(&mut self, answer: Result<()>)
        ensures { self.new ≡ with_hang_up answer self.old }
    {
        self.hung_up = true;
        self.keep_fault(answer);
    }

    pub(super) fn keep_first_fault(&mut self, answer: std::result::Result<(), RefusedRequest>)
        ensures { self.new ≡ with_first_fault answer self.old }
    {
        if let Err(refused) = answer {
            self.keep_fault(Err(refused.error));
        }
    }

    pub(super) fn keep_fault(&mut self, answer: Result<()>)
        ensures { self.new ≡ with_fault answer self.old }
    {
        if let Err(error) = answer {
            if self.fault.is_none() {
                self.fault = Some(error);
            }
        }
    }
}
