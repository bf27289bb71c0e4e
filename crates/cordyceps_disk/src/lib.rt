//! A queue of disk requests, a program to copy: by sector in the order of an elevator, and by deadline where one has
//! passed.
#![tactic(auto)]

pub mod laws;
mod placing;
pub mod queue;
pub mod request;
