//! Laws of keys and their values, for the crates above, and the limits as numbers.
ghost use Rattle.std.specs.Prelude.{◌≡◌};
ghost use Rattle.fy_locality.specs.declared.TheConstants.{MOST_PROCESSES};
ghost use Rattle.fy_locality.specs.declared.process_set.TheConstants.{SET_WORDS};
ghost use Rattle.fy_locality.specs.declared.name.TheConstants.{MOST_NAME_CHARACTERS};
ghost use Rattle.fy_locality.specs.Key.{KeyTextsDiffer};
ghost use Rattle.fy_locality.specs.Values.{ValuesDiffer, ValuesOccur, ValueIsHad, ProcessesHaveValues};

/// The texts of two keys differ.
pub fn key_texts_differ()
    ensures { KeyTextsDiffer }
{}

/// The values of a key differ.
pub fn values_differ()
    ensures { ValuesDiffer }
{}

/// A value of a key is one that some process has.
pub fn values_occur()
    ensures { ValuesOccur }
{}

/// To have a value is to have it as the value of the key.
pub fn value_is_had()
    ensures { ValueIsHad }
{}

/// Only a process has a value.
pub fn processes_have_values()
    ensures { ProcessesHaveValues }
{}

/// The limits of this crate, as numbers.
pub fn limits()
    ensures processes { MOST_PROCESSES ≡ 1024 }
    ensures set_words { SET_WORDS ≡ 16 }
    ensures name_characters { MOST_NAME_CHARACTERS ≡ 32 }
{}
