//! A journal that is drawn while it is checked entry by entry.
ghost use Rattle.std.specs.Prelude.{◌≡◌, ◌++◌, ◌∷◌, [], List, None, Some, Err, IfErr, IfOk, OnOk, length, string_bytes};
ghost use Rattle.fy_acts.specs.declared.entry.Entry.{Entry};
ghost use Rattle.fy_cluster.specs.Setup.{Setup};
ghost use Rattle.fy_cluster.specs.Versions.{LegalUnder};
ghost use Rattle.fy_replay.specs.Check.{ChecksOrOom};
ghost use Rattle.fy_picture.specs.Recording.{HasEndedDue, HasRecorded, begun, roomed};
ghost use Rattle.fy_svg.specs.Documents.{EndsDocument, IsDocument};

use crate::glyphs::{Glyphs, is_order};
use crate::lanes::{Lane, lanes_of, rows_of};
use crate::layout::MOST_LINES;
use crate::marks::{Ticks, fold_ticks, note_time};
use crate::otherwise::Rings;
use crate::sheet::document;
use fy_acts::{Entry, Journal, Reply, Version};
use fy_cluster::Config;
use fy_events::{Event, TimeColumns};
use fy_locality::ProcSet;
use fy_picture::{Picture, Recorder, named_by, rule_of};
use fy_replay::CheckFault;
use std::alloc::{AllocError, Global};
use std::marker::Model;

/// What a column stands for.
#[derive(Clone, Copy)]
pub(crate) enum Width {
    /// So many entries.
    Entries(usize),
    /// So many microseconds.
    Micros(u64),
}

/// All that a document shows of a journal.
#[derive(Drop)]
pub(crate) struct Drawn {
    pub picture: Picture,
    pub lanes: Vec<Lane>,
    pub width: Width,
    pub glyphs: Glyphs,
    /// The rings round orders for which something else was done, as a part of the document.
    pub rings: Option<String>,
    /// When time passed, at most once a column.
    pub ticks: Vec<Ticks>,
    /// The first orders that struck with less or were barred.
    pub orders: Vec<Entry>,
}

/// Checks a journal entry by entry, and draws the entries before the first bad one. Of an entry no
/// more is kept than its column shows, but for the first hundred orders against which a rule stood.
/// After an error a drawing is of no use: an order may be missing.
#[derive(Drop)]
pub struct Drawing {
    alloc: Global,
    recorder: Recorder,
    lanes: Vec<Lane>,
    /// How long a column lasts, where columns are laid by time.
    micros: Option<u64>,
    glyphs: Glyphs,
    rings: Option<Rings>,
    ticks: Vec<Ticks>,
    orders: Vec<Entry>,
}

impl Model for Drawing {
    ghost use Rattle.std.specs.Coded.{codes};
    ghost use Rattle.fy_locality.specs.contracts.locality.Locality as e;
    ghost use Rattle.fy_policy.specs.TreeCode.{tree_code};
    ghost use Rattle.fy_picture.specs.Recording.{Recording};

    ghost Value = { Recording };

    ghost coded = { Prim.hlevel (codes, tree_code, e.the_row.coded) };

    ghost view = { λ drawing. drawing.recorder };
}

/// An order, and the processes that its target named.
#[derive(Drop)]
struct Order {
    entry: Entry,
    named: ProcSet,
}

impl Drawing {
    /// Begins with a cluster of this configuration, for a journal of the version. Columns are even:
    /// each stands for the same power of two of entries, and there are at most `MOST_COLUMNS`.
    ///
    /// # Errors
    ///
    /// `AllocError` where an allocation fails.
    pub fn begin(alloc: Global, config: &Config, version: Version) -> Result<Drawing, AllocError>
        ensures begun { IfOk result (λ drawing. drawing ≡ begun version config.now None) }
        ensures recorded { IfOk result (HasRecorded config.now []) }
    {
        let recorder = Recorder::begin(alloc, config.try_copy(alloc)?, version)?;
        Drawing::begin_with(alloc, config, recorder, None, None)
    }

    /// Begins likewise, for a journal whose columns are laid by the times of its events.
    ///
    /// # Errors
    ///
    /// `AllocError` where an allocation fails.
    pub fn begin_by_time(
        alloc: Global,
        config: &Config,
        version: Version,
        columns: TimeColumns,
        events: Vec<Event>,
    ) -> Result<Drawing, AllocError>
        ensures begun { IfOk result (λ drawing.
            drawing ≡ begun version config.now (Some columns.ends.items)) }
        ensures recorded { IfOk result (HasRecorded config.now []) }
    {
        let rows = rows_of(alloc, &lanes_of(alloc, config.map())?)?;
        let rings = Rings::begin(alloc, rows, events)?;
        let own = config.try_copy(alloc)?;
        let recorder = Recorder::begin_laid(alloc, own, version, columns.ends)?;
        Drawing::begin_with(alloc, config, recorder, Some(columns.width), Some(rings))
    }

    /// Begins with what is recorded so.
    fn begin_with(
        alloc: Global,
        config: &Config,
        recorder: Recorder,
        micros: Option<u64>,
        rings: Option<Rings>,
    ) -> Result<Drawing, AllocError>
        ensures { IfOk result (λ drawing. drawing ≡ recorder) }
    {
        let lanes = lanes_of(alloc, config.map())?;
        let rows = rows_of(alloc, &lanes)?;
        Ok(Drawing {
            alloc,
            recorder,
            lanes,
            micros,
            glyphs: Glyphs::begin(alloc, rows)?,
            rings,
            ticks: Vec::new(alloc),
            orders: Vec::new(alloc),
        })
    }

    /// The place of the first bad entry so far; `None` where the entries are a legal journal.
    pub fn first_bad(&self) -> Option<u32>
        ensures { result ≡ self.now.first_bad }
    {
        self.recorder.first_bad()
    }

    /// The order that an entry is, with the processes that its target names before it.
    fn order_of(&self, entry: &Entry) -> Result<Option<Order>, AllocError> {
        if !is_order(entry) {
            return Ok(None);
        }
        Ok(Some(Order {
            named: named_by(self.recorder.cluster(), &entry.act),
            entry: entry.try_copy(self.alloc)?,
        }))
    }

    /// Draws an order in the column that is open, where the entry is one.
    fn draw_order(&mut self, order: Option<Order>) -> Result<(), AllocError>
        ensures { OnOk result (self.new ≡ self.old) }
    {
        let Some(Order { entry, named }) = order else {
            return Ok(());
        };
        if rule_of(&entry).is_some() && self.orders.len() < MOST_LINES {
            self.orders.push(entry.try_copy(self.alloc)?)?;
        }
        if let Some(rings) = &mut self.rings {
            rings.note(self.alloc, &named, &entry)?;
        }
        self.glyphs.note(&named, entry)?;
        Ok(())
    }

    /// Draws that time passed, where it did.
    fn draw_time(&mut self, at: u32, reply: Reply) -> Result<(), AllocError>
        ensures { OnOk result (self.new ≡ self.old) }
    {
        let Reply::Time { now } = reply else {
            return Ok(());
        };
        let open = self.recorder.columns();
        note_time(&mut self.ticks, open, at, now)?;
        Ok(())
    }

    /// Makes each two columns one, where there are too many.
    fn make_room(&mut self) -> Result<(), AllocError>
        ensures { OnOk result (self.new ≡ roomed self.old) }
    {
        if self.recorder.make_room()? {
            self.glyphs.fold()?;
            self.ticks = fold_ticks(self.alloc, &self.ticks)?;
        }
        Ok(())
    }

    /// Ends the columns that end before the next entry.
    fn end_due(&mut self) -> Result<(), AllocError>
        ensures { OnOk result (HasEndedDue (roomed self.old) self.new) }
    {
        self.make_room()?;
        let open = self.recorder.columns();
        self.recorder.end_due()?;
        if self.recorder.columns() > open {
            self.end_column(open)?;
        }
        Ok(())
    }

    /// Ends the glyphs and the rings of a column.
    fn end_column(&mut self, column: usize) -> Result<(), AllocError>
        ensures { OnOk result (self.new ≡ self.old) }
    {
        self.glyphs.end_column(column)?;
        if let Some(rings) = &mut self.rings {
            rings.end_column(column)?;
        }
        Ok(())
    }

    /// Checks the next entry, and draws it where it is what the rules give. After the first bad one
    /// nothing is done. While none is bad, the entry's place is the number of entries so far.
    ///
    /// # Errors
    ///
    /// `AllocError` where an allocation fails.
    pub fn enter(&mut self, entry: Entry) -> Result<(), AllocError>
        requires { self.old.first_bad ≡ None → entry.at ≡ length self.old.execution.journal }
        ensures entered { OnOk result ((setup : Setup) (so_far : List Entry)
            → HasRecorded setup so_far self.old
            → HasRecorded setup (so_far ++ entry ∷ []) self.new) }
        ensures version { OnOk result (self.new.version ≡ self.old.version) }
        ensures laid { OnOk result (self.new.columns.laid ≡ self.old.columns.laid) }
    {
        self.end_due()?;
        let (at, reply) = (entry.at, entry.reply);
        let order = self.order_of(&entry)?;
        self.recorder.enter(entry)?;
        if self.recorder.first_bad().is_some() {
            return Ok(());
        }
        self.draw_order(order)?;
        self.draw_time(at, reply)?;
        Ok(())
    }

    /// Enters the entries of a journal into a drawing of no entries, up to the first bad one. Those
    /// behind it would change nothing.
    ///
    /// # Errors
    ///
    /// `AllocError` where an allocation fails.
    pub fn enter_all(&mut self, journal: &Journal) -> Result<(), AllocError>
        requires { (setup : Setup) × HasRecorded setup [] self.old }
        ensures entered { OnOk result ((setup : Setup) → HasRecorded setup [] self.old
            → HasRecorded setup journal.now.entries self.new) }
        ensures version { OnOk result (self.new.version ≡ self.old.version) }
        ensures laid { OnOk result (self.new.columns.laid ≡ self.old.columns.laid) }
    {
        journal.invariant();
        for entry in journal.entries() {
            self.enter(entry.try_copy(self.alloc)?)?;
            if self.first_bad().is_some() {
                return Ok(());
            }
        }
        Ok(())
    }

    /// The SVG document of the entries before the first bad one, whose place it marks in red.
    /// `config` is the one that the drawing began with.
    ///
    /// # Errors
    ///
    /// `AllocError` where an allocation fails.
    pub fn finish(mut self, config: &Config) -> Result<String, AllocError>
        ensures { IfOk result (λ text. IsDocument self (string_bytes text)) }
    {
        self.end_due()?;
        let bad = self.first_bad();
        let open = self.recorder.columns();
        self.end_column(open)?;
        let Drawing {
            alloc,
            recorder,
            lanes,
            micros,
            glyphs,
            rings,
            ticks,
            orders,
        } = self;
        let picture = recorder.finish()?;
        let width = match micros {
            Some(micros) => Width::Micros(micros),
            None => Width::Entries(picture.width.unwrap_or(1)),
        };
        let drawn = Drawn {
            picture,
            lanes,
            width,
            glyphs,
            rings: rings.map(|rings| rings.into_text()),
            ticks,
            orders,
        };
        let text = document(alloc, config, &drawn, bad)?;
        Ok(text)
    }
}

/// The SVG document of a legal journal under this configuration.
///
/// # Errors
///
/// `BadEntry` at the first entry that isn't what the rules give, as `fy_replay::replay`; `NoMemory`
/// where an allocation fails.
pub fn svg(alloc: Global, config: &Config, journal: &Journal) -> Result<String, CheckFault>
    ensures document { IfOk result (λ text. EndsDocument (string_bytes text)) }
    ensures legal { OnOk result
        (LegalUnder journal.now.version config.now journal.now.entries) }
    ensures bad { IfErr result (λ fault.
        ChecksOrOom journal.now.version config.now journal.now.entries (Err fault)) }
{
    let mut drawing = Drawing::begin(alloc, config, journal.version())?;
    drawing.enter_all(journal)?;
    if let Some(at) = drawing.first_bad() {
        return Err(CheckFault::BadEntry { at });
    }
    Ok(drawing.finish(config)?)
}
