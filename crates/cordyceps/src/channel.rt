//! Channels: senders and a receiver over the queue that threads share, which wait, end, and say so.

pub use cordyceps_channel::{
    Batch, Closed, Disconnected, NoWake, Receipt, Receiver, RecvTimeoutError, Select, Selected,
    Sender, TryRecvError, TrySendError, Wake, channel, channel_with_senders, channel_with_waker,
};
