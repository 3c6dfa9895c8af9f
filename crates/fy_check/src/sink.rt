//! What takes the entries of an audit as they are read.
use fy_audit::Entry;
use fy_replay::Replayer;
use std::alloc::AllocError;

/// What takes the entries of an audit one after another. `has_taken` says what it has come to by
/// these entries, from what it was before the first.
pub trait Sink {
    ghost use Rattle.std.specs.Prelude.{◌≡◌, ◌++◌, ◌∷◌, [], List, length, OnOk};
    ghost use Rattle.fy_acts.specs.declared.entry.Entry.{Entry};

    ghost has_taken: { Self → List Entry → Self → Type 0 };

    /// Takes the next entry, which is numbered by its place. After an error the sink is of no use.
    ///
    /// # Errors
    ///
    /// An allocation failed.
    fn enter(&mut self, entry: Entry) -> Result<(), AllocError>
        requires { (begun : Self) × (so_far : List Entry) × has_taken begun so_far self.old
            × (entry.at ≡ length so_far) }
        ensures { OnOk result ((begun : Self) (so_far : List Entry)
            → has_taken begun so_far self.old → has_taken begun (so_far ++ entry ∷ []) self.new) };
}

impl Sink for Replayer {
    ghost use Rattle.std.specs.Prelude.{◌≡◌};
    ghost use Rattle.fy_replay.specs.Replayed.{HasReplayed};

    ghost has_taken = { λ begun entries now. HasReplayed begun.execution.setup entries now
        × (now.version ≡ begun.version) };

    fn enter(&mut self, entry: Entry) -> Result<(), AllocError> {
        self.enter(entry)
    }
}
