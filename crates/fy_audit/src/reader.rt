//! Audits read entry by entry.
ghost use Rattle.std.specs.Prelude.{◌≡◌, ◌≢◌, ◌↔◌, ◌<◌, ◌≤◌, ◌+◌, ◌++◌, ◌∷◌, [], ℕ, List, length, IsTrue, IfSome, IfNone, IfOk, IfErr, Err};
ghost use Rattle.fy_lines.specs.Lines.{IsLine};
ghost use Rattle.fy_spelling.specs.declared.command.TheConstants.{MOST_LINE_BYTES};
ghost use Rattle.fy_audit.specs.Audit.{AuditOf, HasNoHeader, BeginsWith, BeginsFaulty, EndsBefore};
ghost use Rattle.fy_audit.specs.AuditText.{header};
ghost use Rattle.fy_audit.specs.Reading.{HasRead, ReadsEntry, Stops};
ghost use Rattle.fy_audit.specs.declared.audit.TheConstants.{MOST_AUDIT_BYTES};
ghost use Rattle.fy_audit.specs.declared.audit.AuditFault.TheVariants.{TooLong, Line};
ghost use Rattle.fy_audit.specs.declared.audit.AuditLineFault.TheVariants.{Header};
ghost use Rattle.fy_audit.specs.Versions.{knows_refusal, knows_reply, has_entry};

use crate::{
    AuditFault, AuditLineFault, Entry, MOST_AUDIT_BYTES, MOST_LINE_BYTES, Refusal, Reply, Version,
    header_text,
};
use fy_lines::split_at_newline;
use fy_spelling::laws::{a_text_is_a_line, a_text_is_of_one_entry};
use fy_spelling::{EntryFault, read_entry};
use std::alloc::Global;
use std::marker::Model;

/// An audit that is read entry by entry: nothing is kept but what is left of it.
#[derive(Drop)]
pub struct AuditReader<'b> {
    alloc: Global,
    version: Version,
    place: u32,
    rest: &'b [u8],
    /// A buffer that each line overwrites, so that it grows only once.
    room: Vec<u8>,
}

impl<'b> Model for AuditReader<'b> {
    ghost use Rattle.fy_audit.specs.Reading.{ReaderState};

    ghost Value = { ReaderState };

    ghost use Rattle.fy_audit.specs.Reader.{reader_state, IsWithin};

    ghost view = { reader_state };

    ghost invariant = { IsWithin };
}

/// Why the rest of an audit gives no entry.
#[derive(Clone, Copy)]
enum NoEntry {
    /// The first line of what is left is faulty.
    Faulty(AuditLineFault),
    /// An allocation for the entry failed.
    NoMemory,
}

/// All that follows the header of a version, where an audit begins with it.
fn behind_header(bytes: &[u8], version: Version) -> Option<&[u8]>
    ensures some { IfSome result (λ rest. bytes.now ≡ header version ++ rest.now) }
    ensures none { IfNone result ((rest : List ℕ) → bytes.now ≡ header version ++ rest → ⊥) }
{
    bytes.strip_prefix(header_text(version).as_bytes())
}

/// The version by whose header an audit begins, and all that follows it.
pub fn after_header(bytes: &[u8]) -> Option<(Version, &[u8])>
    ensures some { IfSome result (λ found. bytes.now ≡ header found.0 ++ found.1.now) }
    ensures none { IfNone result (HasNoHeader bytes.now) }
{
    if let Some(rest) = behind_header(bytes, Version::Second) {
        return Some((Version::Second, rest));
    }
    match behind_header(bytes, Version::First) {
        Some(rest) => Some((Version::First, rest)),
        None => None,
    }
}

/// Whether there is such a refusal under the version: the first lacks the four of copies, replaced
/// members and healing.
fn knows_refusal(version: Version, refusal: Refusal) -> bool
    ensures { result ≡ knows_refusal version refusal }
{
    match refusal {
        Refusal::NoCopy | Refusal::IsMember | Refusal::NotDestroyed | Refusal::StillNeeds { .. } =>
            version == Version::Second,
        Refusal::Stranger
        | Refusal::WrongRole
        | Refusal::TooMany
        | Refusal::NoPolicy
        | Refusal::NoProcess
        | Refusal::Gone
        | Refusal::TeamShort { .. }
        | Refusal::NoTeam
        | Refusal::Payload
        | Refusal::NetFull
        | Refusal::NoMessage
        | Refusal::Clogged
        | Refusal::NotUp
        | Refusal::NoRecord
        | Refusal::NotMember
        | Refusal::Acked
        | Refusal::IsUp
        | Refusal::ClockEnd
        | Refusal::NoActor
        | Refusal::Full
        | Refusal::NoSuch => true,
    }
}

/// Whether there is such a reply under the version.
fn knows_reply(version: Version, reply: Reply) -> bool
    ensures { result ≡ knows_reply version reply }
{
    match reply {
        Reply::No(refusal) => knows_refusal(version, refusal),
        Reply::Verdict(_)
        | Reply::Ruled { .. }
        | Reply::Formed { .. }
        | Reply::Begun { .. }
        | Reply::Stored
        | Reply::Marked { .. }
        | Reply::Sent { .. }
        | Reply::Synced { .. }
        | Reply::Time { .. }
        | Reply::Done => true,
    }
}

/// Whether audits of the version have such an entry.
fn has_entry(version: Version, entry: &Entry) -> bool
    ensures { result ≡ has_entry version entry.now }
{
    version.knows(&entry.act) && knows_reply(version, entry.reply)
}

/// The entry of a line, which has to stand at this place in an audit of the version. The line has
/// no line feed: one follows it. `room` is a buffer that is overwritten.
///
/// Asks that the line isn't too long.
///
/// # Errors
///
/// `Syntax` where the line isn't the text of such an entry; `NoMemory` in its place, where an
/// allocation fails.
pub fn read_entry_at(
    alloc: Global,
    line: &[u8],
    version: Version,
    place: u32,
    room: &mut Vec<u8>,
) -> Result<Entry, EntryFault>
    requires short { length line.now ≤ MOST_LINE_BYTES }
    requires whole { IsLine line.now }
    ensures found { IfOk result (λ entry. (after : List ℕ) →
        BeginsWith version place (line.now ++ 10 ∷ after) entry after) }
    ensures none { result ≡ Err EntryFault.Syntax → (after : List ℕ) →
        BeginsFaulty version place (line.now ++ 10 ∷ after) AuditLineFault.Syntax }
{
    // Laws that tell which line an entry has.
    a_text_is_a_line();
    a_text_is_of_one_entry();
    match read_entry(alloc, line, room) {
        Ok(entry) => {
            if entry.at == place && has_entry(version, &entry) {
                Ok(entry)
            } else {
                Err(EntryFault::Syntax)
            }
        }
        Err(fault) => Err(fault),
    }
}

/// The entry at the front of what is left of an audit, which has to stand at this place, and what
/// follows its line.
fn first_entry<'b>(
    alloc: Global,
    rest: &'b [u8],
    version: Version,
    place: u32,
    room: &mut Vec<u8>,
) -> Result<(Entry, &'b [u8]), NoEntry>
    requires { 0 < length rest.now }
    ensures found { IfOk result (λ found. BeginsWith version place rest.now found.0 found.1.now) }
    ensures fault { IfErr result (λ fault. EndsBefore version place rest.now fault) }
{
    let (line, after) = match split_at_newline(rest) {
        Some((line, after)) => (line, after),
        // A last line without its line feed is all that is left.
        None => {
            return if rest.len() > MOST_LINE_BYTES {
                Err(NoEntry::Faulty(AuditLineFault::TooLong))
            } else {
                Err(NoEntry::Faulty(AuditLineFault::Syntax))
            };
        }
    };
    if line.len() > MOST_LINE_BYTES {
        return Err(NoEntry::Faulty(AuditLineFault::TooLong));
    }
    match read_entry_at(alloc, line, version, place, room) {
        Ok(entry) => Ok((entry, after)),
        Err(EntryFault::Syntax) => Err(NoEntry::Faulty(AuditLineFault::Syntax)),
        Err(EntryFault::NoMemory) => Err(NoEntry::NoMemory),
    }
}

impl<'b> AuditReader<'b> {
    /// Begins with the header.
    ///
    /// # Errors
    ///
    /// In this order: `TooLong`; `Line` for the first line, where it isn't a header.
    pub fn begin(alloc: Global, bytes: &'b [u8]) -> Result<AuditReader<'b>, AuditFault>
        ensures begun { IfOk result (λ reader. HasRead bytes.now [] reader) }
        ensures refused { IfErr result (λ fault. AuditOf bytes.now (Err fault)) }
        ensures too_long { (result ≡ Err TooLong) ↔ (MOST_AUDIT_BYTES < length bytes.now) }
        ensures first { IfErr result (λ fault. fault ≢ TooLong → fault ≡ Line 1 Header) }
    {
        if bytes.len() > MOST_AUDIT_BYTES {
            return Err(AuditFault::TooLong);
        }
        match after_header(bytes) {
            Some((version, rest)) => Ok(AuditReader::resume(alloc, version, 0, rest)),
            None => Err(AuditFault::Line {
                number: 1,
                fault: AuditLineFault::Header,
            }),
        }
    }

    /// Goes on with the rest of an audit of this version, of which so many entries were read.
    ///
    /// Asks that there are no more of both, entries and bytes, than an audit may have bytes.
    pub fn resume(alloc: Global, version: Version, place: u32, rest: &'b [u8]) -> AuditReader<'b>
        requires { place + length rest.now ≤ MOST_AUDIT_BYTES }
        ensures { result ≡ record { version = version; place = place; rest = rest.now } }
    {
        AuditReader {
            alloc,
            version,
            place,
            rest,
            room: Vec::new(alloc),
        }
    }

    /// The version that the header names.
    pub fn version(&self) -> Version
        ensures { result ≡ self.now.version }
    {
        self.version
    }

    /// The place of the next entry, from 0: how many were read.
    pub fn place(&self) -> u32
        ensures { result ≡ self.now.place }
    {
        self.place
    }

    /// Whether nothing is left.
    pub fn is_at_end(&self) -> bool
        ensures { IsTrue result ↔ (self.now.rest ≡ []) }
    {
        self.rest.is_empty()
    }

    /// Reads the next entry. What is left is the same where there is none.
    ///
    /// # Errors
    ///
    /// `Line` for the next line, where it is faulty; `NoMemory` where an allocation fails before.
    pub fn next_entry(&mut self) -> Result<Entry, AuditFault>
        requires { 0 < length self.old.rest }
        ensures read { IfOk result (λ entry. ReadsEntry entry self.old self.new) }
        ensures stopped { IfErr result (Stops self.old) }
        ensures same { IfErr result (λ _. self.new ≡ self.old) }
    {
        match first_entry(
            self.alloc,
            self.rest,
            self.version,
            self.place,
            &mut self.room,
        ) {
            Ok((entry, after)) => {
                self.place += 1;
                self.rest = after;
                Ok(entry)
            }
            Err(NoEntry::Faulty(fault)) => Err(AuditFault::Line {
                number: self.place + 2,
                fault,
            }),
            Err(NoEntry::NoMemory) => Err(AuditFault::NoMemory),
        }
    }
}
