//! A drawing into which an audit is read.
use fy_audit::Entry;
use fy_check::Sink;
use fy_svg::Drawing;
use std::alloc::AllocError;

/// A drawing that takes the entries of an audit, as a sink of them.
#[derive(Drop)]
pub(crate) struct Sketch(pub Drawing);

impl Sink for Sketch {
    ghost use Rattle.std.specs.Prelude.{◌≡◌};
    ghost use Rattle.fy_picture.specs.Recording.{HasRecorded};

    ghost has_taken = { λ begun entries now. HasRecorded begun.0.execution.setup entries now.0
        × (now.0.version ≡ begun.0.version)
        × (now.0.columns.laid ≡ begun.0.columns.laid) };

    fn enter(&mut self, entry: Entry) -> Result<(), AllocError> {
        self.0.enter(entry)
    }
}
