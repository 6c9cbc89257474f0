//! What a law says of a program's own waits for a table.

ghost use Rattle.std.specs.Prelude.{◌≡◌, ◌<◌, ◌+◌, ◌++◌, ℕ, true, Some, length, slice_get};
ghost use Rattle.std.specs.List.{Contains};
ghost use Rattle.vmm_sys.specs.Poller.{reported};
ghost use Rattle.vmm_sys.specs.ServiceBound.{Wait, after};
ghost use Rattle.vmm_sys.specs.Table.{Answers, counted, entry_of, filled, is_ready, wait_of};
ghost use Rattle.vmm_sys.specs.declared.table.interests.Interest.{Interest};

use vmm_sys::epoll::EpollEvent;
use vmm_sys::errno::Errno;
use vmm_sys::table::{Table, service_bound};

/// Waits twice. Each interest that is ready at the first wait, and has fewer before it than the buffers have room for together, is
/// reported by one of the waits.
pub fn wait_twice(
    table: &mut Table,
    first: &mut [EpollEvent],
    second: &mut [EpollEvent],
) -> (Result<usize, Errno>, Result<usize, Errno>)
    ensures served { (place : ℕ) (interest : Interest) → slice_get table.old.interests place ≡ Some interest → is_ready table.old.sources interest ≡ true →
        place < length first.old + length second.old → Contains (reported result.0 first.new ++ reported result.1 second.new) (entry_of table.old.sources interest) }
    ensures answers { Answers (counted (wait_of table.old (length first.old))) table.old result.0 (after table.old (Wait (length first.old)))
        × Answers (counted (wait_of (after table.old (Wait (length first.old))) (length second.old))) (after table.old (Wait (length first.old))) result.1 table.new }
    ensures table { table.new ≡ after (after table.old (Wait (length first.old))) (Wait (length second.old)) }
    ensures first { first.new ≡ filled (wait_of table.old (length first.old)) first.old }
    ensures second { second.new ≡ filled (wait_of (after table.old (Wait (length first.old))) (length second.old)) second.old }
{
    service_bound();
    let answer = table.wait(first);
    let next_answer = table.wait(second);
    (answer, next_answer)
}
