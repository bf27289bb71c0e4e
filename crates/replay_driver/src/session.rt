//! What the lines of a script mean and do, for the driver.
ghost use Rattle.std.specs.Prelude.{⊤};
ghost use Rattle.replay_driver.specs.Script.{Machine};
ghost use Rattle.replay_driver.specs.Steps.{TakesLine, Ends};

use std::alloc::AllocError;

/// What the lines of a script mean, and what they do.
///
/// A session takes the lines one after the other. A line completes no command, one, or several, and the end of the
/// lines may complete one more. Each command has a text: its reply lines, each with its line feed.
pub trait Session {
    // What the commands change.
    ghost State: { Type 0 };

    // What each line does, and its replies.
    ghost machine: { Machine State };

    ghost state: { Self → State };

    // Holds of a session that may take lines, as long as it lasts.
    ghost is_ready: { Self → Type 0 } = { λ _. ⊤ };

    /// Takes a line, without its line feed, and appends the texts of the commands that it completes. Returns `false` if
    /// the line is bad, and then changes nothing.
    ///
    /// # Errors
    /// If memory for one of the commands is refused, it returns `AllocError`. The texts of those before it were
    /// appended. The session is as if the line had not come, or as if it had been taken whole.
    ///
    /// # Complexity
    /// That of the commands and their texts.
    fn take(&mut self, line: &[u8], text: &mut Vec<u8>) -> Result<bool, AllocError>
        requires { is_ready self.old }
        ensures taken { TakesLine machine (state self.old) line.now (state self.new)
            text.old.items text.new.items result }
        ensures ready { is_ready self.new };

    /// Appends the texts of the commands that the end of the lines completes. Further lines may then come.
    ///
    /// # Errors
    /// If memory for one of them is refused, it returns `AllocError`. The texts of those before it were appended. The
    /// session is as if the end had not come, or as if it had been taken whole.
    ///
    /// # Complexity
    /// That of the commands and their texts.
    fn end(&mut self, text: &mut Vec<u8>) -> Result<(), AllocError>
        requires { is_ready self.old }
        ensures ended { Ends machine (state self.old) (state self.new) text.old.items text.new.items result }
        ensures ready { is_ready self.new };
}

/// Why no further line is taken.
#[derive(Clone, Copy, Debug, PartialEq, Eq)]
pub enum Stop {
    /// The line is bad.
    Bad,
    /// Memory was refused.
    Memory,
    /// The sink failed.
    Write,
}
