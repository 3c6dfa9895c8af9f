//! Where the text of a policy leaves the grammar, or goes past a limit.
use crate::hints::{cut, hint, nearest};
use crate::shapes::{OTHER_PROCESS_KEYS, PROCESS_KEYS};
use fy_policy::{MOST_COUNT, MOST_DEPTH, MOST_NODES, MOST_READ_BYTES};
use std::alloc::{AllocError, AllocFailed, Global};

/// How a policy may begin.
const HEADS: [&str; 3] = ["One", "Across", "And"];

/// What is wrong with a text, and with which of its bytes.
#[derive(Drop)]
pub(crate) struct Flaw {
    pub(crate) start: usize,
    pub(crate) end: usize,
    pub(crate) text: String,
}

/// Why a scan ends early.
#[derive(Drop)]
enum Wrong {
    Flaw(Flaw),
    NoMemory,
}

impl From<AllocError> for Wrong {
    fn from(_: AllocError) -> Wrong {
        Wrong::NoMemory
    }
}

impl<T: Drop> From<AllocFailed<T>> for Wrong {
    fn from(_: AllocFailed<T>) -> Wrong {
        Wrong::NoMemory
    }
}

/// A text that is read from its front on.
#[derive(Drop)]
struct Scan<'t> {
    alloc: Global,
    text: &'t str,
    at: usize,
    /// The policies that haven't ended yet, the outermost first: whether each is an `And`.
    open: Vec<bool>,
    nodes: usize,
}

impl<'t> Scan<'t> {
    /// What isn't read yet.
    fn rest(&self) -> &'t str {
        match self.text.split_at_checked(self.at) {
            Some((_, rest)) => rest,
            None => "",
        }
    }

    /// All up to the next bracket or comma.
    fn word(&self) -> &'t str {
        let rest = self.rest();
        let length = rest
            .as_bytes()
            .iter()
            .take_while(|byte| !matches!(**byte, b'(' | b')' | b','))
            .count();
        match rest.split_at_checked(length) {
            Some((word, _)) => word,
            None => rest,
        }
    }

    /// Whether a byte comes next.
    fn sees(&self, byte: u8) -> bool {
        self.rest().as_bytes().first().copied() == Some(byte)
    }

    /// Goes on by so many bytes.
    fn pass(&mut self, length: usize) {
        self.at = self.at.saturating_add(length);
    }

    /// What comes next, for people.
    fn told(&self) -> Result<String, AllocError> {
        let word = cut(self.word());
        if !word.is_empty() {
            return format!(in self.alloc; "`{word}`");
        }
        match self.rest().chars().next() {
            Some(sign) => format!(in self.alloc; "`{sign}`"),
            None => String::from_str(self.alloc, "its end"),
        }
    }

    /// That so many bytes from here on are wrong.
    fn flaw(&self, length: usize, text: String) -> Wrong {
        Wrong::Flaw(Flaw {
            start: self.at,
            end: self.at.saturating_add(length.max(1)),
            text,
        })
    }

    /// Goes behind a byte.
    fn take(&mut self, byte: u8, place: &str) -> Result<(), Wrong> {
        if self.sees(byte) {
            self.pass(1);
            return Ok(());
        }
        let (told, wanted) = (self.told()?, char::from(byte));
        let text = format!(in self.alloc; "`{wanted}` is missing{place}, and {told} follows")?;
        Err(self.flaw(1, text))
    }

    /// Goes behind the head of a policy. The answer is whether another policy begins there.
    fn head(&mut self) -> Result<bool, Wrong> {
        let word = self.word();
        if !HEADS.iter().any(|one| *one == word) {
            return Err(self.no_head(word)?);
        }
        self.nodes = self.nodes.saturating_add(1);
        if self.open.len() >= MOST_DEPTH as usize {
            let text = format!(in self.alloc; "the policy is nested deeper than {MOST_DEPTH}")?;
            return Err(self.flaw(word.len(), text));
        }
        if self.nodes > MOST_NODES as usize {
            let text = format!(in self.alloc; "the policy has more than {MOST_NODES} nodes")?;
            return Err(self.flaw(word.len(), text));
        }
        self.pass(word.len());
        match word {
            "One" => self.one(),
            "Across" => self.across(),
            _ => self.all_of(),
        }
    }

    /// That no policy begins with a word.
    fn no_head(&self, word: &str) -> Result<Wrong, AllocError> {
        let known = "a policy begins with `One()`, `Across(` or `And(`";
        let text = match nearest(self.alloc, word, &HEADS, &[])? {
            Some(meant) => {
                let shown = cut(word);
                format!(in self.alloc; "`{shown}` is unknown: did you mean `{meant}`?")?
            }
            None => {
                let told = self.told()?;
                format!(in self.alloc; "{known}, and {told} stands here")?
            }
        };
        Ok(self.flaw(word.len(), text))
    }

    /// Goes behind the brackets of `One()`.
    fn one(&mut self) -> Result<bool, Wrong> {
        self.take(b'(', ": one copy is `One()`")?;
        self.take(b')', ": one copy is `One()`")?;
        Ok(false)
    }

    /// Goes behind the count and the key of `Across(..)`.
    fn across(&mut self) -> Result<bool, Wrong> {
        self.take(b'(', " behind `Across`")?;
        self.count()?;
        self.take(b',', " behind the count")?;
        self.key()?;
        let place = " behind the key: what each group has to satisfy comes next, mostly `One()`";
        self.take(b',', place)?;
        self.open.push(false)?;
        Ok(true)
    }

    /// Goes behind a count.
    fn count(&mut self) -> Result<(), Wrong> {
        let word = self.word();
        let shown = cut(word);
        if word.is_empty() || !word.bytes().all(|byte| byte.is_ascii_digit()) {
            let told = self.told()?;
            let text = format!(in self.alloc; "behind `Across(` stands a count, and not {told}")?;
            return Err(self.flaw(word.len(), text));
        }
        if word.len() > 1 && word.as_bytes().first().copied() == Some(b'0') {
            let text = format!(in self.alloc; "`{shown}` begins with 0")?;
            return Err(self.flaw(word.len(), text));
        }
        match word.parse::<u32>() {
            Ok(count) if (1..=MOST_COUNT).contains(&count) => {
                self.pass(word.len());
                Ok(())
            }
            _ => {
                let text = format!(in self.alloc; "`{shown}` is outside 1 to {MOST_COUNT}")?;
                Err(self.flaw(word.len(), text))
            }
        }
    }

    /// Goes behind a key.
    fn key(&mut self) -> Result<(), Wrong> {
        let word = self.word();
        if PROCESS_KEYS.iter().any(|one| *one == word) {
            self.pass(word.len());
            return Ok(());
        }
        let meant = nearest(
            self.alloc,
            word.trim_ascii(),
            &PROCESS_KEYS,
            &OTHER_PROCESS_KEYS,
        )?;
        let hint = hint(self.alloc, meant, "the keys are", &PROCESS_KEYS)?;
        let told = self.told()?;
        let text = format!(in self.alloc; "{told} is no key: {hint}")?;
        Err(self.flaw(word.len(), text))
    }

    /// Goes behind the bracket of `And(..)`.
    fn all_of(&mut self) -> Result<bool, Wrong> {
        self.take(b'(', " behind `And`")?;
        if self.sees(b')') {
            let text = String::from_str(self.alloc, "`And(..)` needs a policy at least")?;
            return Err(self.flaw(1, text));
        }
        self.open.push(true)?;
        Ok(true)
    }

    /// Goes behind what follows a policy in another. The answer is whether one more begins there.
    fn behind(&mut self) -> Result<bool, Wrong> {
        let is_and = self.open.last().copied() == Some(true);
        if is_and && self.sees(b',') {
            self.pass(1);
            return Ok(true);
        }
        if is_and {
            self.take(b')', " at the end of `And(..`")?;
        } else {
            self.take(b')', " at the end of `Across(..`")?;
        }
        let _ = self.open.pop();
        Ok(false)
    }

    /// That nothing follows.
    fn end(&self) -> Result<(), Wrong> {
        if self.rest().is_empty() {
            return Ok(());
        }
        let told = self.told()?;
        let text = format!(in self.alloc; "the policy should end here, and {told} follows")?;
        Err(self.flaw(1, text))
    }
}

/// Reads a text to its end.
fn read_whole(alloc: Global, text: &str) -> Result<(), Wrong> {
    let mut scan = Scan {
        alloc,
        text,
        at: 0,
        open: Vec::new(alloc),
        nodes: 0,
    };
    if text.len() > MOST_READ_BYTES {
        let told = format!(in alloc; "the policy has more than {MOST_READ_BYTES} bytes")?;
        return Err(scan.flaw(1, told));
    }
    let mut begins = true;
    for _ in 0..text.len().saturating_add(1) {
        begins = if begins {
            scan.head()?
        } else if scan.open.is_empty() {
            return scan.end();
        } else {
            scan.behind()?
        };
    }
    Ok(())
}

/// What is wrong with the text of a policy, if anything is.
pub(crate) fn flaw_in(alloc: Global, text: &str) -> Result<Option<Flaw>, AllocError> {
    match read_whole(alloc, text) {
        Ok(()) => Ok(None),
        Err(Wrong::Flaw(flaw)) => Ok(Some(flaw)),
        Err(Wrong::NoMemory) => Err(AllocError),
    }
}
