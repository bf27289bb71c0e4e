//! Tests of the queue that threads share, through its public names: its calls one after the other, those that may wait,
//! consumers that own it with others or are forgotten, parties that are dropped, and crowds of threads.
#![tactic(auto)]

#[cfg(test)]
mod bells;
#[cfg(test)]
mod calls;
#[cfg(test)]
mod closings;
#[cfg(test)]
mod compared;
#[cfg(test)]
mod crowds;
#[cfg(test)]
mod items;
#[cfg(test)]
mod large_queues;
#[cfg(test)]
mod pools;
#[cfg(test)]
mod queue_drops;
#[cfg(test)]
mod queues;
#[cfg(test)]
mod receipts;
#[cfg(test)]
mod scenes;
#[cfg(test)]
mod seats;
#[cfg(test)]
mod tasks;
#[cfg(test)]
mod travels;
#[cfg(test)]
mod waits;
#[cfg(test)]
mod workers;
