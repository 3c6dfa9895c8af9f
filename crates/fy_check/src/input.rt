//! An audit that is read piece by piece, entry by entry.
ghost use Rattle.std.specs.Prelude.{◌≡◌, ◌≤◌, ◌+◌, [], List, ℕ, length, Option, None, IfOk, IfErr, IfSome, Ok, Err};
ghost use Rattle.fy_lines.specs.Readings.{ReadsAtMost};
ghost use Rattle.fy_lines.specs.Windows.{ReadsOn};
ghost use Rattle.fy_acts.specs.declared.entry.Entry.{Entry};
ghost use Rattle.fy_audit.specs.Audit.{AuditOf};
ghost use Rattle.fy_audit.specs.declared.audit.TheConstants.{MOST_AUDIT_BYTES};
ghost use Rattle.fy_check.specs.Inputs.{HasTaken, HasTakenOne, IsReadInto, IsRefused, IsInputStop, TellsFault, input_stop};

use crate::sink::Sink;
use fy_audit::{
    AuditFault, AuditLineFault, Entry, EntryFault, MOST_AUDIT_BYTES, MOST_LINE_BYTES, Version,
    after_header, read_entry_at,
};
use fy_lines::{InputFault, NextLine, Window};
use fy_streams::Stop;
use std::alloc::Global;
use std::io::Read;
use std::marker::Model;

/// An audit that is read piece by piece from a reader, which each call is given. Memory doesn't
/// grow with its entries.
#[derive(Drop)]
pub struct AuditInput {
    alloc: Global,
    window: Window,
    version: Version,
    place: u32,
    /// A buffer that each line overwrites, so that it grows only once.
    room: Vec<u8>,
}

impl Model for AuditInput {
    ghost use Rattle.fy_check.specs.Inputs.{InputState};

    ghost Value = { InputState };

    ghost use Rattle.fy_check.specs.InputFields.{input_state, IsWithin};

    ghost view = { input_state };

    ghost invariant = { IsWithin };
}

/// The stop for an audit of which not all can be read.
pub fn input_stop(fault: InputFault) -> Stop
    ensures stop { result ≡ input_stop fault }
    ensures own { IsInputStop result }
{
    let too_long = Stop::Audit {
        fault: AuditFault::TooLong,
    };
    fy_streams::input_stop(fault, too_long)
}

/// The stop for a faulty line.
fn line_stop(number: u32, fault: AuditLineFault) -> Stop
    ensures { result ≡ Stop.Audit (AuditFault.Line number fault) }
{
    Stop::Audit {
        fault: AuditFault::Line { number, fault },
    }
}

/// The stop for a faulty line of which more may follow. The rest is read for it: the audit may be
/// too long, or the reader may fail, which is told in place of any line.
fn refuse<R: Read>(window: &mut Window, reader: &mut R, number: u32, fault: AuditLineFault) -> Stop
    requires within { window.old.read ≤ MOST_AUDIT_BYTES }
    ensures read { ReadsOn window.old window.new (R.remaining reader.old) (R.remaining reader.new) }
    ensures held { window.old.read + length window.new.held ≤ window.new.read }
    ensures stop { IsRefused number fault window.new.read (R.remaining reader.new) result }
{
    match window.drain(reader, MOST_AUDIT_BYTES) {
        Ok(()) => line_stop(number, fault),
        Err(fault) => input_stop(fault),
    }
}

impl AuditInput {
    /// Begins with the header.
    ///
    /// # Errors
    ///
    /// `Audit` where the audit is too long, wherever that shows, or its first line isn't a header;
    /// `Read` where the reader fails; `NoMemory` where an allocation fails.
    pub fn begin<R: Read>(alloc: Global, reader: &mut R) -> Result<AuditInput, Stop>
        ensures begun { IfOk result
            (HasTaken (R.remaining reader.old) (R.remaining reader.new) []) }
        ensures refused { IfErr result (TellsFault (R.remaining reader.old)) }
        ensures own { IfErr result IsInputStop }
        ensures read_fault { result ≡ Err Stop.Read →
            ReadsAtMost (R.remaining reader.old) (R.remaining reader.new) MOST_AUDIT_BYTES }
        ensures no_further { ReadsAtMost (R.remaining reader.old) (R.remaining reader.new)
            (MOST_AUDIT_BYTES + 1) }
    {
        let mut window = Window::make(alloc)?;
        match window.find_line(reader, MOST_LINE_BYTES, MOST_AUDIT_BYTES) {
            Ok(NextLine::Whole(_)) => {}
            Ok(NextLine::Last(_)) => return Err(line_stop(1, AuditLineFault::Header)),
            Ok(NextLine::Long) => {
                return Err(refuse(&mut window, reader, 1, AuditLineFault::Header));
            }
            Err(fault) => return Err(input_stop(fault)),
        }
        let held = window.held();
        let (version, count) = match after_header(held) {
            Some((version, rest)) => (version, held.len() - rest.len()),
            None => return Err(refuse(&mut window, reader, 1, AuditLineFault::Header)),
        };
        window.drop_front(count);
        Ok(AuditInput {
            alloc,
            window,
            version,
            place: 0,
            room: Vec::new(alloc),
        })
    }

    /// The version that the header names.
    pub fn version(&self) -> Version
        ensures { result ≡ self.now.version }
    {
        self.version
    }

    /// The place of the next entry, from 0: how many were read.
    fn place(&self) -> u32
        ensures { result ≡ self.now.place }
    {
        self.place
    }

    /// Reads the next entry; `None` where the audit ended.
    ///
    /// # Errors
    ///
    /// `Audit` where the audit is too long, wherever that shows, or its next line is faulty; `Read`
    /// where the reader fails, in place of a faulty line too: the rest is read for that. `NoMemory`
    /// where an allocation fails.
    fn next_entry<R: Read>(&mut self, reader: &mut R) -> Result<Option<Entry>, Stop>
        requires { self.old.read ≤ MOST_AUDIT_BYTES }
        ensures taken { IfOk result (λ next. IfSome next
            (HasTakenOne (R.remaining reader.old) (R.remaining reader.new) self.old self.new)) }
        ensures ended { result ≡ Ok None → (known : Option (List ℕ)) → (entries : List Entry) →
            HasTaken known (R.remaining reader.old) entries self.old → IfSome known (λ bytes.
            AuditOf bytes (Ok (record { version = self.old.version; entries = entries }))) }
        ensures count { result ≡ Ok None → self.new.place ≡ self.old.place }
        ensures refused { IfErr result (λ stop. (known : Option (List ℕ)) →
            (entries : List Entry) → HasTaken known (R.remaining reader.old) entries self.old →
            TellsFault known stop) }
        ensures own { IfErr result IsInputStop }
        ensures read_fault { result ≡ Err Stop.Read → (known : Option (List ℕ)) →
            (entries : List Entry) → HasTaken known (R.remaining reader.old) entries self.old →
            ReadsAtMost known (R.remaining reader.new) MOST_AUDIT_BYTES }
        ensures no_further { (known : Option (List ℕ)) → (entries : List Entry) →
            HasTaken known (R.remaining reader.old) entries self.old →
            ReadsAtMost known (R.remaining reader.new) (MOST_AUDIT_BYTES + 1) }
    {
        let next = match self
            .window
            .find_line(reader, MOST_LINE_BYTES, MOST_AUDIT_BYTES)
        {
            Ok(next) => next,
            Err(fault) => return Err(input_stop(fault)),
        };
        let number = self.place + 2;
        let count = match next {
            NextLine::Whole(count) => count,
            NextLine::Last(0) => return Ok(None),
            NextLine::Last(_) => return Err(line_stop(number, AuditLineFault::Syntax)),
            NextLine::Long => {
                return Err(refuse(&mut self.window, reader, number, AuditLineFault::TooLong));
            }
        };
        let line = &self.window.held()[..count];
        match read_entry_at(self.alloc, line, self.version, self.place, &mut self.room) {
            Ok(entry) => {
                self.window.drop_front(count + 1);
                self.place += 1;
                Ok(Some(entry))
            }
            Err(EntryFault::Syntax) => {
                Err(refuse(&mut self.window, reader, number, AuditLineFault::Syntax))
            }
            Err(EntryFault::NoMemory) => Err(Stop::NoMemory),
        }
    }

    /// Reads all entries, each into a sink, and answers how many there are. It is asked once, at
    /// the first entry.
    ///
    /// # Errors
    ///
    /// `Audit` where the audit is too long, wherever that shows, or has a faulty line; `Read` where
    /// the reader fails, in place of a faulty line too; `NoMemory` where an allocation fails.
    pub fn read_into<R: Read, S: Sink>(&mut self, reader: &mut R, sink: &mut S) -> Result<u32, Stop>
        requires first { (known : Option (List ℕ))
            × HasTaken known (R.remaining reader.old) [] self.old }
        requires begun { S.has_taken sink.old [] sink.old }
        ensures read { IfOk result (λ count. (known : Option (List ℕ)) →
            HasTaken known (R.remaining reader.old) [] self.old → IfSome known (λ bytes.
            IsReadInto bytes self.old.version count
            (λ entries. S.has_taken sink.old entries sink.new))) }
        ensures refused { IfErr result (λ stop. (known : Option (List ℕ)) →
            HasTaken known (R.remaining reader.old) [] self.old → TellsFault known stop) }
        ensures own { IfErr result IsInputStop }
        ensures read_fault { result ≡ Err Stop.Read → (known : Option (List ℕ)) →
            HasTaken known (R.remaining reader.old) [] self.old →
            ReadsAtMost known (R.remaining reader.new) MOST_AUDIT_BYTES }
        ensures no_further { (known : Option (List ℕ)) →
            HasTaken known (R.remaining reader.old) [] self.old →
            ReadsAtMost known (R.remaining reader.new) (MOST_AUDIT_BYTES + 1) }
    {
        while let Some(entry) = self.next_entry(reader)? {
            sink.enter(entry)?;
        }
        Ok(self.place())
    }
}
