//! Tests of the programs to copy for threads, and of disk queues: in which order things come, and what is dropped.
#![tactic(auto)]

#[cfg(test)]
mod compared;
#[cfg(test)]
mod disks;
#[cfg(test)]
mod journals;
#[cfg(test)]
mod logs;
#[cfg(test)]
mod made;
#[cfg(test)]
mod mailboxes;
#[cfg(test)]
mod pools;
#[cfg(test)]
mod run_queues;
#[cfg(test)]
mod schedules;
#[cfg(test)]
mod timer_orders;
