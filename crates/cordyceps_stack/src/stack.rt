//! Stacks, the kind of their nodes, the stack that threads share, and its core.

pub use crate::cores::calls::TransferCore;
pub use crate::cores::replay::replay;
pub use crate::cores::replay_end::Replay;
pub use crate::cores::steps::{TransferAnswer, TransferStep};
pub use crate::shared::calls::{Party, TransferStack};
pub use crate::shared::inbox::Inbox;
pub use crate::shared::push_error::TryPushError;
pub use crate::shared::receipt::Receipt;
pub use cordyceps_base::shared::{MAX_ROOMS, StepError};
pub use cordyceps_base::stack::Links;
pub use cordyceps_shared::pool::QUANTUM;
pub use cordyceps_single::stack::Stack;
