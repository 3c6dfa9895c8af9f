//! The first bad entry of an audit, and what the rules give in its place.
use fy_audit::{Entry, push_entry_line};
use fy_check::{AuditInput, Sink};
use fy_cluster::{ClusterState, Config, Fault};
use fy_streams::Stop;
use std::alloc::{AllocError, Global};
use std::io::Read;

/// A bad entry, and the one that the rules give in its place, if the journal has room for one.
#[derive(Drop)]
pub struct BadEntry {
    pub entry: Entry,
    pub given: Option<Entry>,
}

impl BadEntry {
    /// A line that shows the entry, and one that shows what the rules give.
    ///
    /// # Errors
    ///
    /// `AllocError` where an allocation fails.
    pub fn lines(&self, alloc: Global) -> Result<Vec<u8>, AllocError> {
        let mut text = Vec::new(alloc);
        text.extend_from_slice(b"  audit: ")?;
        push_entry_line(&mut text, &self.entry)?;
        if let Some(given) = &self.given {
            text.extend_from_slice(b"  rules: ")?;
            push_entry_line(&mut text, given)?;
        }
        Ok(text)
    }
}

/// What makes the acts of an audit once more, up to the first bad entry.
#[derive(Drop)]
struct Search {
    alloc: Global,
    state: ClusterState,
    found: Option<BadEntry>,
}

impl Sink for Search {
    // No definition says what is found.
    ghost has_taken = { λ _ _ _. Unit };

    fn enter(&mut self, entry: Entry) -> Result<(), AllocError> {
        if self.found.is_some() {
            return Ok(());
        }
        let act = entry.act.try_copy(self.alloc)?;
        match self.state.enter(entry.by, act) {
            Ok(given) => {
                if given != entry {
                    let given = Some(given);
                    self.found = Some(BadEntry { entry, given });
                }
            }
            Err(Fault::JournalFull) => self.found = Some(BadEntry { entry, given: None }),
            Err(Fault::NoMemory) => return Err(AllocError),
        }
        Ok(())
    }
}

/// The first bad entry of an audit, which is read to its end; `None` where it is legal.
///
/// # Errors
///
/// The stops of `fy_check::replay_audit`.
pub fn find_bad_entry<R: Read>(
    alloc: Global,
    config: Config,
    reader: &mut R,
) -> Result<Option<BadEntry>, Stop> {
    let mut input = AuditInput::begin(alloc, reader)?;
    let mut search = Search {
        alloc,
        state: ClusterState::make(alloc, config)?,
        found: None,
    };
    let _ = input.read_into(reader, &mut search)?;
    let Search {
        alloc: _,
        state: _,
        found,
    } = search;
    Ok(found)
}
