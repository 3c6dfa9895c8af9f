//! The numbers of a team's records.
ghost use Rattle.std.specs.Prelude.{◌≡◌, [], ◌∷◌, ◌++◌, OnOk, OnErr};

use fy_locality::TryCopy;
use std::alloc::{AllocError, Global};
use std::marker::Model;

/// Numbers of records, in the order in which they were added.
#[derive(Drop)]
pub(crate) struct Numbers {
    numbers: Vec<u32>,
}

impl Model for Numbers {
    ghost use Rattle.std.specs.Prelude.{List, ℕ};

    ghost Value = { List ℕ };

    ghost view = { λ n. n.numbers.items };
}

impl TryCopy for Numbers {
    fn try_copy(&self, alloc: Global) -> Result<Numbers, AllocError> {
        let numbers = Vec::from_slice(alloc, &self.numbers)?;
        Ok(Numbers { numbers })
    }
}

impl Numbers {
    /// No number. Doesn't allocate.
    pub(crate) fn make(alloc: Global) -> Numbers
        ensures { result ≡ [] }
    {
        Numbers {
            numbers: Vec::new(alloc),
        }
    }

    /// Adds a number behind the others.
    ///
    /// # Errors
    ///
    /// `AllocError` only if the allocation fails. The numbers then stay as they were.
    pub(crate) fn add(&mut self, rec: u32) -> Result<(), AllocError>
        ensures added { OnOk result (self.new ≡ self.old ++ rec ∷ []) }
        ensures err { OnErr result (self.new ≡ self.old) }
    {
        self.numbers.push(rec)?;
        Ok(())
    }

    /// The numbers.
    pub(crate) fn as_slice(&self) -> &[u32]
        ensures { result.now ≡ self.now }
    {
        self.numbers.as_slice()
    }
}
