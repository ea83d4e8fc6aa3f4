//! The threads that rest until there is work, and how many of them to wake for it.
ghost use Rattle.std.specs.Prelude.{◌≡◌, ◌+◌, ◌-◌, ◌^◌, min, max};

/// The threads that rest until there is work. Each begins and ends its rest here, under the lock of what it waits for.
/// A woken thread takes a while to end its rest: until then it counts as `waking`, and nobody else is woken in its
/// place. Once it has, it takes its work, and asks again how many to wake for what is left.
#[derive(Clone, Copy, Debug, PartialEq, Eq)]
pub struct IdleThreads {
    /// The number of threads that rest.
    pub idle: usize,
    /// The number of these that were woken.
    pub waking: usize,
}

impl IdleThreads {
    /// Returns the value of which no thread rests.
    pub fn new() -> IdleThreads
        ensures { result ≡ record { idle = 0; waking = 0 } }
    {
        IdleThreads { idle: 0, waking: 0 }
    }

    /// Records that a thread begins to rest. The number stops at 2^64 - 1.
    pub fn begin_rest(&mut self)
        ensures { self.new ≡ record { idle = min (self.old.idle + 1) (2 ^ 64 - 1); waking = self.old.waking } }
    {
        self.idle = self.idle.saturating_add(1);
    }

    /// Records that a thread has ended its rest. It counts as one that was woken, if any was.
    pub fn end_rest(&mut self)
        ensures { self.new ≡ record { idle = self.old.idle - 1; waking = self.old.waking - 1 } }
    {
        self.idle = self.idle.saturating_sub(1);
        self.waking = self.waking.saturating_sub(1);
    }

    /// Returns how many threads to wake now, so that `wanted` are waking, or all that rest if these are fewer. They
    /// count as woken. So if one is wanted and one rests, one is waking afterwards.
    pub fn wake(&mut self, wanted: usize) -> usize
        ensures idle { self.new.idle ≡ self.old.idle }
        ensures waking { self.new.waking ≡ max self.old.waking (min wanted self.old.idle) }
        ensures woken { self.old.waking + result ≡ self.new.waking }
    {
        let waking = self.waking.max(wanted.min(self.idle));
        let woken = waking - self.waking;
        self.waking = waking;
        woken
    }
}
