//! A session that notes why a line was bad.
ghost use Rattle.std.specs.Prelude.{◌≡◌};

use replay_driver::session::Session;
use replay_lines::reason::{Reason, Vocabulary, find_reason};
use std::alloc::AllocError;

/// A session, and why the last line that it called bad was bad.
#[derive(Drop)]
pub(crate) struct Noting<S> {
    session: S,
    vocabulary: Vocabulary,
    pub why: Option<Reason>,
}

impl<S> Noting<S> {
    /// Creates a session that takes lines as this one does, which are of the mode with these command words.
    pub fn new(session: S, vocabulary: Vocabulary) -> Self
        ensures { result.session ≡ session }
    {
        Noting {
            session,
            vocabulary,
            why: None,
        }
    }
}

impl<S: Session> Session for Noting<S> {
    ghost State = { S.State };

    ghost machine = { S.machine };

    ghost state = { λ noting. S.state noting.session };

    ghost is_ready = { λ noting. S.is_ready noting.session };

    fn take(&mut self, line: &[u8], text: &mut Vec<u8>) -> Result<bool, AllocError> {
        let taken = self.session.take(line, text);
        if let Ok(false) = taken {
            self.why = Some(find_reason(self.vocabulary, line));
        }
        taken
    }

    fn end(&mut self, text: &mut Vec<u8>) -> Result<(), AllocError> {
        self.session.end(text)
    }
}
