//! Tests of stable lists, of those that an order keeps sorted, of heaps with spots, of queues of times, and of sorts:
//! each call by tables, cursors by spots, drops, how often the order is asked, and many calls beside a vector.
#![tactic(auto)]

#[cfg(test)]
mod asked;
#[cfg(test)]
mod clock_calls;
#[cfg(test)]
mod clock_operations;
#[cfg(test)]
mod clock_queues;
#[cfg(test)]
mod compared;
#[cfg(test)]
mod cursors;
#[cfg(test)]
mod drops;
#[cfg(test)]
mod heap_calls;
#[cfg(test)]
mod heap_operations;
#[cfg(test)]
mod heaps;
#[cfg(test)]
mod kept_spots;
#[cfg(test)]
mod keys;
#[cfg(test)]
mod queue_spots;
#[cfg(test)]
mod sorted_calls;
#[cfg(test)]
mod sorted_lists;
#[cfg(test)]
mod sorted_operations;
#[cfg(test)]
mod sorting;
#[cfg(test)]
mod spots;
#[cfg(test)]
mod stable_calls;
#[cfg(test)]
mod stable_lists;
#[cfg(test)]
mod stable_operations;
#[cfg(test)]
mod travels;
