//! Why a run stops before the end of its input.

use std::fmt;

/// The error of a read or a write that failed.
#[derive(Clone, Copy, Debug, PartialEq, Eq)]
pub struct Failed;

/// Why a run stopped before the end of its input. Its text is the line for standard error, without a line feed.
#[derive(Clone, Copy, Debug, PartialEq, Eq)]
pub enum Fault {
    /// The line with this number, counted from 1, is not a command of the mode.
    BadLine(u64),
    /// The source failed.
    Read,
    /// The sink failed.
    Write,
    /// Memory was refused.
    Memory,
}

impl Fault {
    ghost use Rattle.std.specs.Prelude.{◌≡◌};
    ghost use Rattle.replay_driver.specs.Faults.{status_of};

    /// Returns the exit status of a program that ends with this fault: 2 for a bad line, 3 for a failed read or write,
    /// 4 for refused memory.
    ///
    /// # Complexity
    /// O(1).
    pub fn status(&self) -> u8
        ensures { result ≡ status_of self.now }
    {
        match self {
            Fault::BadLine(_) => 2,
            Fault::Read | Fault::Write => 3,
            Fault::Memory => 4,
        }
    }
}

impl fmt::Display for Fault {
    ghost use Rattle.std.specs.Prelude.{Some};
    ghost use Rattle.replay_driver.specs.Faults.{message_of};

    ghost output = { λ fault. Some (message_of fault) };

    fn fmt<W: fmt::Write>(&self, f: &mut fmt::Formatter<W>) -> fmt::Result {
        match self {
            Fault::BadLine(line) => write!(f, "bad line {line}"),
            Fault::Read => f.write_str("read failed"),
            Fault::Write => f.write_str("write failed"),
            Fault::Memory => f.write_str("out of memory"),
        }
    }
}
