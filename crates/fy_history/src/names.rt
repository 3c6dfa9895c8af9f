//! Texts that are told apart by numbers.
ghost use Rattle.std.specs.Prelude.{◌≡◌, [], ◌∷◌, ◌++◌, length, IfOk, OnOk, IfSome, None};
ghost use Rattle.fy_history.specs.Names.{text_at, number_of, with_text, IsPlaceOf, IsNew};

use indexmap::IndexSet;
use std::alloc::{AllocError, Global};
use std::marker::Model;

/// Distinct texts, numbered from 0 in the order in which they were first given.
#[derive(Drop)]
pub struct Names {
    alloc: Global,
    texts: IndexSet<String>,
}

impl Model for Names {
    ghost use Rattle.std.specs.Prelude.{ℕ, List};
    ghost use Rattle.fy_history.specs.Names.{texts_of};

    ghost Value = { List (List ℕ) };

    ghost view = { λ names. texts_of names.texts.keys };
}

impl Names {
    /// No text.
    pub fn new(alloc: Global) -> Names
        ensures { result ≡ [] }
    {
        Names {
            alloc,
            texts: IndexSet::new(alloc),
        }
    }

    /// How many texts there are.
    pub fn len(&self) -> usize
        ensures { result ≡ length self.now }
    {
        self.texts.len()
    }

    /// The text of a number, which is empty where no text has it.
    pub fn text(&self, number: u32) -> &str
        ensures { result.now ≡ text_at self.now number }
    {
        match self.texts.get_index(number as usize) {
            Some(text) => text.as_str(),
            None => "",
        }
    }

    /// The place of a text.
    fn place(&self, text: &str) -> Option<usize>
        ensures found { IfSome result (λ place. IsPlaceOf self.now text.now place) }
        ensures absent { result ≡ None → IsNew self.now text.now }
    {
        self.texts.get_index_of(text)
    }

    /// Puts a text behind all others.
    #[tactic(auto, using(crate::proofs::Texts::added))]
    fn add(&mut self, text: &str) -> Result<(), AllocError>
        requires { IsNew self.old text.now }
        ensures { OnOk result (self.new ≡ self.old ++ text.now ∷ []) }
    {
        let owned = String::from_str(self.alloc, text)?;
        match self.texts.insert(owned) {
            Ok(_) => Ok(()),
            Err(_) => Err(AllocError),
        }
    }

    /// The number of a text, which gets the next one where it has none yet.
    ///
    /// # Errors
    ///
    /// `AllocError` where an allocation fails, or all numbers of 32 bits are taken.
    pub fn number(&mut self, text: &str) -> Result<u32, AllocError>
        ensures number { IfOk result (λ number. number ≡ number_of self.old text.now) }
        ensures texts { OnOk result (self.new ≡ with_text self.old text.now) }
    {
        match self.place(text) {
            Some(place) => numbered(place),
            None => {
                let number = numbered(self.len())?;
                self.add(text)?;
                Ok(number)
            }
        }
    }
}

/// A place as a number.
fn numbered(place: usize) -> Result<u32, AllocError>
    ensures { IfOk result (λ number. number ≡ place) }
{
    match u32::try_from(place) {
        Ok(number) => Ok(number),
        Err(_) => Err(AllocError),
    }
}
