//! The driver of scripts of any mode: it reads lines from a source, passes them to a session, and writes the replies to
//! a sink.
//!
//! Take `run_script` to run a script of any language of lines: an `impl` of `Session` says what a line means and does,
//! and any reader is a `Source` by `FromRead`, and any writer a `Sink` by `ToWrite`. A mode's meaning is a machine over
//! lines: a state, a step for each line with the texts of the commands that it completes, and the texts and the state
//! at the end. The driver is proved once for every such machine. It keeps a session's condition from line to line, as,
//! in mode `sorted`, that its lists are in order.
//!
//! The driver reads bytes in blocks of up to 64 KiB. It carries over an unfinished line, of at most 120 bytes, and
//! gives each line to the session. Replies are written when their text is full, at the end of each block of bytes, and
//! before a fault is returned.
//!
//! Proved: that after `Ok` all was read and each reply is written, and after a fault the replies before it, or a prefix
//! of the replies where the sink failed; that the source is read only while no text waits to be written. Only tested:
//! that a run reports streams that fail after any number of bytes, and that replies come before the driver reads more.
//!
//! A run is O(b), for b bytes, and what the commands take. It holds one block, about as many bytes of replies, and
//! those to one command.
#![tactic(auto)]

mod asked;
pub mod fault;
pub mod memory;
pub mod script;
pub mod session;
pub mod sink;
pub mod source;
pub mod text;
