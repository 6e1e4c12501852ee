ghost use Rattle.std.specs.Prelude.{ℕ, ◌≡◌, ◌+◌, ◌*◌, ◌<◌, ◌≤◌, ◌↔◌, IsTrue, None, false};
ghost use Rattle.schedules.specs.Schedule.{IsInRange, IsRunnable, byte_before, is_tick_after, AreAlone};

/// When a run ends, and when bytes and ticks come.
#[derive(Clone, Copy, Debug, PartialEq, Eq)]
pub struct Schedule {
    /// The most steps that are done: 1 to 100000000, or of a run that counts them 0 to 10^14.
    pub steps: u64,
    /// Steps from one byte of the input to the next, 1 to 1000000. The first byte comes before the first step.
    pub gap: u64,
    /// Steps from one tick of the timer to the next, at most 1000000; at 0 there is no tick.
    pub tick: u64,
}

impl Schedule {
    /// Whether the steps, the gap and the tick are in their ranges.
    pub fn is_in_range(self) -> bool
        ensures { IsTrue result ↔ IsInRange self }
    {
        1 <= self.steps && self.steps <= 100_000_000 && self.is_runnable()
    }

    /// Whether a run that counts its steps can go by it: at most 10^14 steps, and a gap and a tick in their ranges.
    pub fn is_runnable(self) -> bool
        ensures { IsTrue result ↔ IsRunnable self }
    {
        self.steps <= 100_000_000_000_000
            && 1 <= self.gap
            && self.gap <= 1_000_000
            && self.tick <= 1_000_000
    }

    /// How many bytes of its input a run by this schedule can use: each byte comes before a step, and those after them never come.
    pub fn most_bytes(self) -> u64
        requires some_step { 1 ≤ self.steps }
        requires range { IsRunnable self }
        ensures used { (i : ℕ) → i < result → 1 + i * self.gap ≤ self.steps }
        ensures unused { (i : ℕ) → result ≤ i → self.steps < 1 + i * self.gap }
    {
        (self.steps - 1) / self.gap + 1
    }

    /// The schedule of its first steps, at most all of them.
    pub fn first(self, count: u64) -> Self
        requires range { IsRunnable self }
        requires few { count ≤ self.steps }
        ensures range { IsRunnable result }
        ensures value { result ≡ record self { steps = count } }
    {
        Schedule {
            steps: count,
            gap: self.gap,
            tick: self.tick,
        }
    }

    /// The byte that comes just before this step, counted from 1.
    #[tactic(auto, unfolding(crate::specs::Schedule::byte_before))]
    pub fn byte_before(self, input: &[u8], step: u64) -> Option<u8>
        requires gap { 1 ≤ self.gap }
        requires step { 1 ≤ step }
        ensures { result ≡ byte_before self input.now step }
    {
        let done = step - 1;
        if done % self.gap != 0 {
            return None;
        }
        input.get((done / self.gap) as usize).copied()
    }

    /// Whether a tick comes after this step, counted from 1.
    #[tactic(auto, unfolding(crate::specs::Schedule::is_tick_after))]
    pub fn is_tick_after(self, step: u64) -> bool
        ensures { result ≡ is_tick_after self step }
    {
        self.tick != 0 && step % self.tick == 0
    }

    /// How many steps come after the first `done` without a byte or a tick between them: at least one, and no more than are left.
    pub fn steps_alone(self, input: &[u8], done: u64) -> u64
        requires gap { 1 ≤ self.gap }
        requires more { done < self.steps }
        ensures some { 1 ≤ result }
        ensures few { done + result ≤ self.steps }
        ensures alone { AreAlone self input.now done result }
    {
        let left = self.steps - done;
        let to_byte = self.steps_to_byte(input, done);
        let to_tick = self.steps_to_tick(done);
        left.min(to_byte).min(to_tick)
    }

    /// How many steps come after the first `done` without a byte between them; where none is to come, 2^64 - 1.
    fn steps_to_byte(self, input: &[u8], done: u64) -> u64
        requires gap { 1 ≤ self.gap }
        ensures some { 1 ≤ result }
        ensures alone { (j : ℕ) → 1 ≤ j → j < result → byte_before self input.now (done + j + 1) ≡ None }
    {
        let last = (input.len() as u64).saturating_sub(1);
        if done / self.gap < last {
            self.gap - done % self.gap
        } else {
            u64::MAX
        }
    }

    /// How many steps come after the first `done` without a tick between them; where none is to come, 2^64 - 1.
    fn steps_to_tick(self, done: u64) -> u64
        ensures some { 1 ≤ result }
        ensures alone { (j : ℕ) → 1 ≤ j → j < result → is_tick_after self (done + j) ≡ false }
    {
        if self.tick != 0 {
            self.tick - done % self.tick
        } else {
            u64::MAX
        }
    }
}
