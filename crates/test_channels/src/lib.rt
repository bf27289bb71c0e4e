//! Tests of channels: tables of calls on one thread and what each replies, with ends of either side and drops; threads
//! that send to one through few rooms, while senders come and go or the receiver ends; memory that is refused; and what
//! can be sent to a thread.
#![tactic(auto)]

#[cfg(test)]
mod calls;
#[cfg(test)]
mod compared;
#[cfg(test)]
mod crowds;
#[cfg(test)]
mod in_a_row;
#[cfg(test)]
mod memory;
#[cfg(test)]
mod one_thread;
#[cfg(test)]
mod selecting;
#[cfg(test)]
mod travels;
