//! Tests of stacks, sorted lists and free lists, and of the cores of the transfer stack and of the queue: replays, refused
//! memory and drops. What the cores' steps and calls return is also compared by the scripts of the modes `transfer` and
//! `queue`.
#![tactic(auto)]

#[cfg(test)]
mod asked;
#[cfg(test)]
mod blocks;
#[cfg(test)]
mod carried_out;
#[cfg(test)]
mod compared;
#[cfg(test)]
mod drops;
#[cfg(test)]
mod elements;
#[cfg(test)]
mod free_lists;
#[cfg(test)]
mod large_free_lists;
#[cfg(test)]
mod number;
#[cfg(test)]
mod queue_cores;
#[cfg(test)]
mod queue_refusals;
#[cfg(test)]
mod scripts;
#[cfg(test)]
mod sorted_lists;
#[cfg(test)]
mod stacks;
#[cfg(test)]
mod threads;
#[cfg(test)]
mod transfer_cores;
#[cfg(test)]
mod travels;
#[cfg(test)]
mod users;
