//! What is kept of a table once it is read.
use fy_cluster::Role;
use fy_grants::Scope;
use fy_kinds::KindSet;
use fy_locality::Name;

/// A grant of an actor; no scope where its value is no name.
#[derive(Clone, Copy)]
pub(crate) struct GivenGrant {
    pub(crate) kinds: KindSet,
    pub(crate) scope: Option<Scope>,
}

/// An actor with its grants in order.
#[derive(Drop)]
pub(crate) struct GivenActor {
    pub(crate) role: Role,
    pub(crate) grants: Vec<GivenGrant>,
}

/// A protection; no process where its text is no name.
#[derive(Clone, Copy)]
pub(crate) struct GivenProtection {
    pub(crate) process: Option<Name>,
    pub(crate) kinds: KindSet,
}
