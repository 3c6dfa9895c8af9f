//! The entries before, from which the definitions of the rules are read off.
use crate::step::FoundStep;
use fy_cluster::Config;
use std::alloc::Global;

/// The past of an entry: the configuration, and the entries before with what they did. The lists
/// that are read off it are made with its allocator.
#[derive(Clone, Copy)]
pub(crate) struct Past<'a> {
    pub(crate) alloc: Global,
    pub(crate) config: &'a Config,
    pub(crate) steps: &'a [FoundStep],
}
