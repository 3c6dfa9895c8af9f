//! An audit that is held as its journal.
ghost use Rattle.std.specs.Prelude.{◌≡◌, ◌+◌, IfOk, IfErr, IfSome, Err};
ghost use Rattle.fy_lines.specs.Readings.{ReadsAtMost};
ghost use Rattle.fy_audit.specs.declared.audit.TheConstants.{MOST_AUDIT_BYTES};
ghost use Rattle.fy_check.specs.Inputs.{IsInputStop, TellsFault};
ghost use Rattle.fy_show.specs.Shows.{IsHeld};

use fy_audit::{Entry, Journal, MOST_AUDIT_BYTES};
use fy_check::{AuditInput, Sink};
use fy_streams::Stop;
use std::alloc::{AllocError, Global};
use std::io::Read;

/// A journal that takes the entries of an audit, as a sink of them. None of them is checked.
#[derive(Drop)]
struct Gathered(Journal);

impl Sink for Gathered {
    ghost use Rattle.std.specs.Prelude.{◌≡◌};

    ghost has_taken = { λ begun entries now. (now.0.entries ≡ entries)
        × (now.0.version ≡ begun.0.version) };

    fn enter(&mut self, entry: Entry) -> Result<(), AllocError> {
        // A journal has room for more entries than an audit has bytes.
        if self.0.reserve(1).is_err() {
            return Err(AllocError);
        }
        let (_, by, act, reply) = entry.into_parts();
        self.0.push(by, act, reply);
        Ok(())
    }
}

/// The journal that an audit tells.
#[derive(Drop)]
pub(crate) struct Held {
    /// How many entries it has.
    pub count: u32,
    pub journal: Journal,
}

/// Reads an audit piece by piece, and holds its entries. None of them is checked.
pub(crate) fn hold<R: Read>(alloc: Global, reader: &mut R) -> Result<Held, Stop>
    ensures held { IfOk result (λ held. IfSome (R.remaining reader.old)
        (λ bytes. IsHeld bytes held)) }
    ensures refused { IfErr result (TellsFault (R.remaining reader.old)) }
    ensures own { IfErr result IsInputStop }
    ensures read_fault { result ≡ Err Stop.Read →
        ReadsAtMost (R.remaining reader.old) (R.remaining reader.new) MOST_AUDIT_BYTES }
    ensures no_further { ReadsAtMost (R.remaining reader.old) (R.remaining reader.new)
        (MOST_AUDIT_BYTES + 1) }
{
    let mut input = AuditInput::begin(alloc, reader)?;
    let mut gathered = Gathered(Journal::of_version(alloc, input.version()));
    let count = input.read_into(reader, &mut gathered)?;
    let Gathered(journal) = gathered;
    Ok(Held { count, journal })
}
