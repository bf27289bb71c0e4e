//! Tests of nodes and of the chains that link them, and of lists: what no script in scripts/ says of their ends,
//! iterators, splits, filters, cursors, drops and laws.
#![tactic(auto)]

#[cfg(test)]
mod chains;
#[cfg(test)]
mod compared;
#[cfg(test)]
mod cursor_edits;
#[cfg(test)]
mod drops;
#[cfg(test)]
mod filters;
#[cfg(test)]
mod handles;
#[cfg(test)]
mod items;
#[cfg(test)]
mod list_ends;
#[cfg(test)]
mod list_laws;
#[cfg(test)]
mod long_lists;
#[cfg(test)]
mod many_operations;
#[cfg(test)]
mod nodes;
#[cfg(test)]
mod readers;
#[cfg(test)]
mod sights;
#[cfg(test)]
mod travels;
#[cfg(test)]
mod whole_lists;
