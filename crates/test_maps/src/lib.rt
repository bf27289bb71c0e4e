//! Tests of maps whose nodes keep their places: each call by tables, drops, refused memory, many calls beside vectors.
#![tactic(auto)]

#[cfg(test)]
mod calls;
#[cfg(test)]
mod compared;
#[cfg(test)]
mod many_calls;
#[cfg(test)]
mod maps;
#[cfg(test)]
mod memory;
#[cfg(test)]
mod plain;
