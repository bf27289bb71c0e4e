//! Tests of the stack that threads share, through its public names: alone and on threads.
#![tactic(auto)]

#[cfg(test)]
mod compared;
#[cfg(test)]
mod inboxes;
#[cfg(test)]
mod items;
#[cfg(test)]
mod large_stacks;
#[cfg(test)]
mod pools;
#[cfg(test)]
mod pushed_at_once;
#[cfg(test)]
mod receipts;
#[cfg(test)]
mod seats;
#[cfg(test)]
mod transfer_drops;
#[cfg(test)]
mod transfer_stacks;
#[cfg(test)]
mod transfer_threads;
#[cfg(test)]
mod without_nodes;
#[cfg(test)]
mod workers;
