//! The work of a task of the scheduler.
ghost use Rattle.std.specs.Prelude.{◌≡◌, ◌+◌, ◌*◌, ◌<◌, ◌≤◌, ◌==◌};

/// The work of a task: in each of its rounds it adds its number to its sum. Between two rounds it sleeps.
#[derive(Drop)]
pub struct Work {
    /// The number that each round adds.
    pub number: u32,
    /// The number of rounds.
    pub rounds: u32,
    /// The pause between two rounds, in ticks of the scheduler's time.
    pub pause: u32,
    /// The number of rounds that were run, which is at most `rounds`.
    pub ran: u32,
    /// The sum, which is always that of the rounds that were run.
    pub sum: u64,
    ghost within: { ran ≤ rounds },
    ghost worked: { sum ≡ ran * number },
}

impl Work {
    /// Creates the work of a new task, with no round run.
    ///
    /// # Complexity
    /// O(1).
    pub fn new(number: u32, rounds: u32, pause: u32) -> Work
        ensures number { result.number ≡ number }
        ensures rounds { result.rounds ≡ rounds }
        ensures pause { result.pause ≡ pause }
        ensures ran { result.ran ≡ 0 }
    {
        Work {
            number,
            rounds,
            pause,
            ran: 0,
            sum: 0,
        }
    }

    /// Returns `true` if no round is left.
    ///
    /// # Complexity
    /// O(1).
    pub fn is_done(&self) -> bool
        ensures { result ≡ (self.now.ran == self.now.rounds) }
    {
        let Work {
            number: _,
            rounds,
            pause: _,
            ran,
            sum: _,
        } = self;
        ran == rounds
    }

    /// Runs one round. Requires that a round is left.
    ///
    /// # Complexity
    /// O(1).
    pub fn run(&mut self)
        requires { self.old.ran < self.old.rounds }
        ensures number { self.new.number ≡ self.old.number }
        ensures rounds { self.new.rounds ≡ self.old.rounds }
        ensures pause { self.new.pause ≡ self.old.pause }
        ensures ran { self.new.ran ≡ self.old.ran + 1 }
        ensures sum { self.new.sum ≡ self.old.sum + self.old.number }
    {
        let Work {
            number,
            rounds: _,
            pause: _,
            ran,
            sum,
        } = self;
        *sum += *number as u64;
        *ran += 1;
    }
}
