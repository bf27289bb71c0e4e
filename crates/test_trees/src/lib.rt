//! Tests of balanced trees: each call by a table, many calls beside a sorted vector, orders, heights, drops, searches
//! by time, and what threads can share.
#![tactic(auto)]

#[cfg(test)]
mod agenda;
#[cfg(test)]
mod calls;
#[cfg(test)]
mod compared;
#[cfg(test)]
mod drops;
#[cfg(test)]
mod maps;
#[cfg(test)]
mod operations;
#[cfg(test)]
mod travels;
#[cfg(test)]
mod trees;
