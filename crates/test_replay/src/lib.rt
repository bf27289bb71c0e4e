//! Tests of the program, how its scripts end and what streams that fail make of them, of words and two threads that
//! share, and of replays of commands on tables. The whole scripts and their replies are in `scripts`. Some replays say
//! more where an allocation is made to fail, as `tools/refusals` does with those of its table: the rest is then run on.
#![tactic(auto)]

#[cfg(test)]
mod adapters;
#[cfg(test)]
mod block_replays;
#[cfg(test)]
mod broken_streams;
#[cfg(test)]
mod compared;
#[cfg(test)]
mod ends;
#[cfg(test)]
mod gates;
#[cfg(test)]
mod long_replays;
#[cfg(test)]
mod prompt_replies;
#[cfg(test)]
mod reasons;
#[cfg(test)]
mod replays;
#[cfg(test)]
mod shares;
#[cfg(test)]
mod sorted_replays;
#[cfg(test)]
mod spellings;
#[cfg(test)]
mod stack_replays;
#[cfg(test)]
mod streams;
#[cfg(test)]
mod wanted;
#[cfg(test)]
mod words;
