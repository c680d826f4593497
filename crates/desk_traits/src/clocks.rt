//! Clocks, which return minutes since 2000-01-01T00:00Z UTC.
ghost use Rattle.std.specs.Prelude.{◌≡◌, ◌<◌, ◌↔◌, ℤ, List as Seq, Option, None, Some, Contains, length, drop, IfOk};
ghost use Rattle.desk_traits.specs.Clocks.{Ticks, GivesTheSame};

use hazard_types::{List, Oom};
use std::sync::atomic::{AtomicU64, Ordering};
use std::time;
use std::time::SystemTime;

/// A clock whose readings are minutes since 2000-01-01T00:00Z UTC.
pub trait Clock {
    /// The future readings, if the clock exposes them; never empty.
    ghost ahead: { Self → Option (Seq ℤ) };

    /// The readings that may come. No call changes them.
    ghost gives: { Self → ℤ → Type 0 };

    /// Returns one of the readings that may come, in minutes since 2000-01-01T00:00Z UTC, for
    /// callers that share the clock. Which of them it is, is not promised.
    fn minute(&self) -> i64
        ensures { gives self.now result };

    /// Returns the next reading, in minutes since 2000-01-01T00:00Z UTC. If the clock exposes its
    /// future readings, it is the first of these, and is removed from them unless it is the only
    /// one.
    fn tick(&mut self) -> i64
        ensures reading { gives self.old result }
        ensures same { GivesTheSame (gives self.old) (gives self.new) }
        ensures ahead { Ticks (ahead self.old) (ahead self.new) result };

    /// A clock that exposes its future readings has at least one.
    ghost never_out: { (clock : Self) (readings : Seq ℤ) → ahead clock ≡ Some readings
        → 0 < length readings };
}

/// A clock with fixed readings, of which the last is repeated. The calls of `tick` and those of
/// `minute` go through the readings separately (docs/DECISIONS.md, "Journal and disk").
#[derive(Drop)]
pub struct SetClock {
    readings: List<i64>,
    at: usize,
    minutes: AtomicU64,
    ghost in_range: { at < length readings },
}

impl SetClock {
    /// Returns a clock whose readings are these, in order, in minutes since 2000-01-01T00:00Z UTC;
    /// the last is repeated. There must be at least one.
    ///
    /// # Errors
    ///
    /// Out of memory.
    pub fn new(readings: &List<i64>) -> Result<Self, Oom>
        requires { 0 < length readings.now }
        ensures ahead { IfOk result
            (λ clock. ⟦<SetClock as Clock>⟧.ahead clock ≡ Some readings.now) }
        ensures gives { IfOk result
            (λ clock. (m : ℤ) → ⟦<SetClock as Clock>⟧.gives clock m ↔ Contains readings.now m) }
    {
        Ok(SetClock {
            readings: readings.clone()?,
            at: 0,
            minutes: AtomicU64::new(0),
        })
    }
}

impl Clock for SetClock {
    ghost use Rattle.desk_traits.specs.ClockLaws.{some_ahead};

    ghost ahead = { λ clock. Some (drop clock.at clock.readings) };

    ghost gives = { λ clock. Contains clock.readings };

    fn minute(&self) -> i64 {
        let readings = self.readings.as_slice();
        let index = self.minutes.fetch_add(1, Ordering::SeqCst) as usize;
        readings[index.min(readings.len() - 1)]
    }

    fn tick(&mut self) -> i64 {
        let readings = self.readings.as_slice();
        let reading = readings[self.at];
        if self.at + 1 < readings.len() {
            self.at += 1;
        }
        reading
    }

    ghost never_out = { λ clock readings told.
        some_ahead clock.readings readings clock.at clock.in_range told };
}

// The seconds from 1970-01-01T00:00Z to 2000-01-01T00:00Z.
const TO_2000: u64 = 946_684_800;

/// The system's clock, which is trusted and exposes no future readings. A reading is the whole
/// minutes passed, or -1 where the system's clock can't be read or shows a time before 2000.
#[derive(Drop)]
pub struct SystemClock<R> {
    clock: R,
}

impl<R: time::Clock> SystemClock<R> {
    /// Returns a clock over `clock`, the runtime's clock of the system.
    pub fn new(clock: R) -> Self {
        SystemClock { clock }
    }
}

impl<R: time::Clock> Clock for SystemClock<R> {
    ghost use Rattle.desk_traits.specs.ClockLaws.{untold_ahead};

    ghost ahead = { λ _. None };

    ghost gives = { λ _ _. Unit {0} };

    fn minute(&self) -> i64 {
        let Ok(now) = SystemTime::now(&self.clock) else {
            return -1;
        };
        let Ok(since) = now.duration_since(SystemTime::UNIX_EPOCH) else {
            return -1;
        };
        let seconds = since.as_secs();
        if seconds < TO_2000 {
            return -1;
        }
        i64::try_from((seconds - TO_2000) / 60).unwrap_or(-1)
    }

    fn tick(&mut self) -> i64 {
        self.minute()
    }

    ghost never_out = { λ _ readings told. untold_ahead readings told };
}
