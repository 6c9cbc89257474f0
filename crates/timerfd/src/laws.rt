//! Laws of timers, whatever times they are told, and of waits beside them: each function does nothing, its contract is a law.

ghost use Rattle.std.specs.Prelude.{◌≡◌, ◌<◌, ◌≤◌, ◌+◌, ◌-◌, ◌*◌, ◌^◌, ◌↔◌, ◌∷◌, ℕ, List, Option, map, max, false, None, Some};
ghost use Rattle.std.specs.List.{All, fold};
ghost use Rattle.timerfd.specs.declared.timer.Timer.{Timer};
ghost use Rattle.timerfd.specs.Timer.{expired};
ghost use Rattle.timerfd.specs.Dues.{is_due, dues, IsFirstOf};
ghost use Rattle.timerfd.specs.Timers.{TimersAt, told};
ghost use Rattle.timerfd.specs.Turns.{AsksBelow, LetsTimersComeFirst, OneOfTwoIs};

use vmm_sys::poller::Poller;

/// Of the times told, in whatever order, only the latest counts: a jump over intervals loses nothing, small steps gain nothing.
pub fn only_the_latest_time_counts()
    ensures { (s : TimersAt) (first : ℕ) (times : List ℕ) → All (λ time. time < 2 ^ 64) (first ∷ times) →
        fold (λ s now. told now s) s (first ∷ times) ≡ told (fold (λ latest now. max latest now) first times) s }
{}

/// No timer expires early: one that isn't due up to now is as it was. And none expires late: none is due up to now any more.
pub fn each_timer_expires_in_time()
    ensures early { (now : ℕ) (t : Timer) → is_due now t.due ≡ false → expired now t ≡ t }
    ensures late { (now : ℕ) (t : Timer) → is_due now (expired now t).due ≡ false }
{}

/// Until the first of the timers is due nothing happens: who sleeps until then, and tells no time, misses nothing.
pub fn nothing_happens_before_the_next_due_time()
    ensures { (now : ℕ) (timers : List Timer) (first : Option ℕ) → IsFirstOf (dues timers) first → is_due now first ≡ false →
        map (expired now) timers ≡ timers }
{}

/// A timer with an interval counts each of its times up to now and no other, while its count is below 18446744073709551615.
pub fn each_time_up_to_now_counts()
    ensures { (now due k : ℕ) (t : Timer) → t.due ≡ Some due → 0 < t.interval → (expired now t).expirations < 2 ^ 64 - 1 →
        (t.expirations + k < (expired now t).expirations) ↔ (due + k * t.interval ≤ now) }
{}

/// Once it has expired, a timer with an interval is due at the first of its times above now, however late it was told.
pub fn an_interval_is_counted_from_the_due_time()
    ensures { (now due next : ℕ) (t : Timer) → t.due ≡ Some due → due ≤ now → 0 < t.interval → (expired now t).due ≡ Some next →
        (now < next) × (next ≤ now + t.interval) × ((k : ℕ) × (next ≡ due + k * t.interval)) }
{}

/// A timer without an interval expires once, and is then disarmed.
pub fn without_an_interval_it_expires_once()
    ensures { (now due : ℕ) (t : Timer) → t.due ≡ Some due → due ≤ now → t.interval ≡ 0 → t.expirations < 2 ^ 64 - 1 →
        expired now t ≡ record t { due = None; expirations = t.expirations + 1 } }
{}

/// Whatever the poller below: of two waits in a row, each with room, at least one asks the poller below, and in at least one timers
/// come first. As the timers of a poller are under a lock, the clauses speak of some timers that calls lead to.
pub fn timers_and_others_take_turns<P: Poller>()
    ensures others { OneOfTwoIs AsksBelow P.may_wait }
    ensures timers { OneOfTwoIs LetsTimersComeFirst P.may_wait }
{}
