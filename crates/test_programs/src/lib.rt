//! Tests of the programs to copy for one thread: that they end, in which order things come, and what is dropped.
#![tactic(auto)]

#[cfg(test)]
mod caches;
#[cfg(test)]
mod compared;
#[cfg(test)]
mod connections;
#[cfg(test)]
mod examples;
#[cfg(test)]
mod expiring;
#[cfg(test)]
mod made;
#[cfg(test)]
mod pools;
#[cfg(test)]
mod sessions;
#[cfg(test)]
mod task_tables;
#[cfg(test)]
mod task_ways;
#[cfg(test)]
mod tours;
#[cfg(test)]
mod wheels;
