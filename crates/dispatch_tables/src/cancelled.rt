//! The descriptors that were removed since the last wait, as an ascending list that is searched by halving.

ghost use Rattle.std.specs.Prelude.{◌≡◌, ℕ, ◌<◌, ◌≤◌, ◌+◌, ◌^◌, length, vec_len, vec_capacity};
ghost use Rattle.dispatch_tables.specs.Cancelled.{IsAscending, IsPlaceOf, HasEntered, is_among};

/// Whether the descriptor was found, the place where it stands or would stand, and after how many probes.
#[derive(Clone, Copy)]
struct SearchEnd {
    found: bool,
    at: usize,
    probes: usize,
}

/// Whether the descriptor is in the ascending list, by which a dispatch finds out that its event was cancelled; and how many
/// entries it was compared with: at most as many as the list's length has binary digits, none where it is empty.
pub fn cancelled_at(list: &[u32], fd: u32) -> (bool, usize)
    requires { IsAscending list.now }
    ensures answer { result.0 ≡ is_among fd list.now }
    ensures probes { (digits : ℕ) → length list.now < 2 ^ digits → result.1 ≤ digits }
{
    let search = search(list, fd);
    (search.found, search.probes)
}

/// Enters a descriptor, unless it is there. The list has room for one more.
pub fn enter(list: &mut Vec<u32>, fd: u32)
    requires ascending { IsAscending list.old.items }
    requires room { vec_len list.old < vec_capacity list.old }
    ensures ascending { IsAscending list.new.items }
    ensures entered { HasEntered list.old.items fd list.new.items }
    ensures len { vec_len list.new ≤ vec_len list.old + 1 }
    ensures capacity { vec_capacity list.old ≤ vec_capacity list.new }
{
    let search = search(list, fd);
    if search.found {
        return;
    }
    let _ = list.insert(search.at, fd);
}

fn search(list: &[u32], fd: u32) -> SearchEnd
    requires { IsAscending list.now }
    ensures place { IsPlaceOf list.now fd result.found result.at }
    ensures probes { (digits : ℕ) → length list.now < 2 ^ digits → result.probes ≤ digits }
{
    let mut low = 0;
    let mut high = list.len();
    let mut probes = 0;
    while low < high {
        let middle = low + (high - low) / 2;
        let entry = list[middle];
        probes += 1;
        if entry == fd {
            return SearchEnd {
                found: true,
                at: middle,
                probes,
            };
        }
        if entry < fd {
            low = middle + 1;
        } else {
            high = middle;
        }
    }
    SearchEnd {
        found: false,
        at: low,
        probes,
    }
}
