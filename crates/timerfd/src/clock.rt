//! The time, in nanoseconds of a clock.

ghost use Rattle.std.specs.Prelude.{◌≡◌, ◌-◌, ◌^◌, min};
ghost use Rattle.std.specs.Duration.{as_nanos};

use std::time::{Clock, Duration};
use vmm_sys::errno::Errno;

/// This duration in nanoseconds; 18446744073709551615 stands for more, too.
pub(crate) fn nanoseconds(duration: Duration) -> u64
    ensures { result ≡ min (as_nanos duration) (2 ^ 64 - 1) }
{
    u64::try_from(duration.as_nanos()).unwrap_or(u64::MAX)
}

/// The clock's time. Its error by its number, `EIO` where it has none.
pub(crate) fn now<R: Clock>(rt: &R) -> Result<u64, Errno> {
    match rt.monotonic() {
        Ok(time) => Ok(nanoseconds(time)),
        Err(error) => Err(error.raw_os_error().map_or(Errno::EIO, Errno)),
    }
}
