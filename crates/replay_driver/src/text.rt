//! Writes of a whole text.
ghost use Rattle.std.specs.Prelude.{◌≡◌, ℕ, List, [], OnErr, OnOk};
ghost use Rattle.replay_driver.specs.Steps.{Writes};

use crate::fault::Failed;
use crate::sink::Sink;

/// Writes the whole text to a sink, and leaves the text empty.
///
/// # Errors
/// If a write fails, a prefix of the text was written.
///
/// # Complexity
/// That of the writes, of which there is at most one for each byte.
pub fn flush<O: Sink>(output: &mut O, text: &mut Vec<u8>) -> Result<(), Failed>
    ensures wrote { OnOk result (Writes O.takes output.old text.old.items output.new [] []) }
    ensures empty { OnOk result (text.new.items ≡ []) }
    ensures front { OnErr result ((rest : List ℕ) × Writes O.takes output.old text.old.items output.new rest []) }
    ensures fails { OnErr result (O.has_failed output.new) }
{
    let mut start = 0;
    while start < text.len() {
        start += output.write(&text[start..])?;
    }
    text.clear();
    Ok(())
}
