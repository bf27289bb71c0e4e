//! Stacks, the kind of their nodes, the stack that threads share, and its core.

pub use cordyceps_base::stack::Links;
pub use cordyceps_stack::stack::{
    Inbox, MAX_ROOMS, Party, QUANTUM, Receipt, Replay, Stack, StepError, TransferAnswer,
    TransferCore, TransferStack, TransferStep, TryPushError, replay,
};
