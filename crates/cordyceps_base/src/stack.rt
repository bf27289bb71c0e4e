//! The kind of node that stacks and sorted lists link.
use crate::node::{Kind, Sealed};
use std::marker::PhantomData;

/// The kind of node that stacks, sorted lists and shared stacks link.
#[derive(Drop)]
pub struct Links<T> {
    value: PhantomData<T>,
}

impl<T> Sealed for Links<T> {}

impl<T> Kind for Links<T> {}
