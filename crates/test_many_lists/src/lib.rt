//! Tests of lists that share their nodes: each call by tables, drops, refused memory, and many calls beside vectors.
#![tactic(auto)]

#[cfg(test)]
mod calls;
#[cfg(test)]
mod compared;
#[cfg(test)]
mod many_lists;
#[cfg(test)]
mod operations;
#[cfg(test)]
mod plain;
