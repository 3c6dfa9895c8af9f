//! The table that the last header names, as far as it lies on the way.
use crate::fault::PlaceFault;
use crate::step::{Step, behind_part, is_index};
use std::alloc::Global;
use toml_parser::Key;

/// What is known of the way behind the headers so far.
#[derive(Drop)]
pub(crate) struct Section {
    /// How many headers with two brackets made each array on the way, the outermost first.
    counts: Vec<usize>,
}

impl Section {
    /// At the top of a document.
    pub(crate) fn top(alloc: Global) -> Section {
        Section {
            counts: Vec::new(alloc),
        }
    }

    /// How many elements an array on the way has, with one more where a header adds it.
    fn count(&mut self, level: usize, adds: bool) -> Result<usize, PlaceFault> {
        let seen = self.counts.get(level).copied().unwrap_or(0);
        if !adds {
            return Ok(seen);
        }
        self.counts.truncate(level);
        self.counts.push(seen.saturating_add(1))?;
        Ok(seen.saturating_add(1))
    }

    /// How many steps of the way are behind an element that a header goes through or adds; `None`
    /// where it is another.
    fn behind_element(
        &mut self,
        way: &[Step<'_>],
        passed: usize,
        adds: bool,
    ) -> Result<Option<usize>, PlaceFault> {
        let Some(Step::Index(index)) = way.get(passed) else {
            return Ok(Some(passed));
        };
        // Of two arrays on a way the second lies in elements of the first.
        let level = way
            .iter()
            .take(passed)
            .filter(|step| is_index(step))
            .count();
        let count = self.count(level, adds)?;
        Ok(if count.checked_sub(1) == Some(*index) {
            Some(passed.saturating_add(1))
        } else {
            None
        })
    }

    /// How many steps of the way are behind a header; `None` where it leads elsewhere.
    pub(crate) fn behind_header(
        &mut self,
        way: &[Step<'_>],
        key: &Key,
        many: bool,
    ) -> Result<Option<usize>, PlaceFault> {
        let mut passed = 0usize;
        for part in &key.path {
            let Some(behind) = behind_part(way, passed, part.as_str()) else {
                return Ok(None);
            };
            let Some(behind) = self.behind_element(way, behind, false)? else {
                return Ok(None);
            };
            passed = behind;
        }
        match behind_part(way, passed, key.last.as_str()) {
            Some(behind) => self.behind_element(way, behind, many),
            None => Ok(None),
        }
    }
}
