//! What a line of `judge`'s input says, from its words. No fault is named here: where a word isn't
//! what it has to be there is no answer, and the line is then refused in `input.rt`.
ghost use Rattle.std.specs.Prelude.{◌≡◌, ◌∷◌, ◌++◌, [], length, MatchOption, IfSome, IfNone, IsOk, IfOk, IsTrue, true, nat_lt, ◌↔◌};
ghost use Rattle.std.specs.List.{list_all};
ghost use Rattle.std.specs.Option.{option_map, option_map_or};
ghost use Rattle.fy_locality.specs.Name.{is_name};
ghost use Rattle.fy_locality.specs.Locality.{are_names, locality_of};
ghost use Rattle.std.specs.Str.{bytes_eq};
ghost use Rattle.fy_decide.specs.declared.dead_book.Loss.{Loss};
ghost use Rattle.fy_judge.specs.JudgeLines.{tokens_of, keyword_of, known, is_text, parse_arguments, policy, process, ask};
ghost use Rattle.fy_judge.specs.JudgeViews.{IsToken};

use fy_decide::Loss;
use fy_locality::{BadName, Locality, Name, ProcId};

/// May this process be lost in this way?
#[derive(Clone, Copy)]
pub(crate) struct Ask {
    pub(crate) loss: Loss,
    pub(crate) process: ProcId,
}

/// What the first word of a line announces.
#[derive(Clone, Copy)]
pub(crate) enum Keyword {
    Policy,
    Process,
    Ask(Loss),
}

/// The bytes before the first blank, and those behind it.
fn split_at_blank(line: &[u8]) -> Option<(&[u8], &[u8])>
    ensures some { IfSome result (λ p. (line.now ≡ p.0.now ++ 32 ∷ p.1.now) × IsToken p.0.now) }
    ensures none { IfNone result (IsToken line.now) }
{
    for i in 0..line.len() {
        if line[i] == b' ' {
            return Some((&line[..i], &line[i + 1..]));
        }
    }
    None
}

/// The first word and those behind it, where there are some.
#[tactic(auto, using(crate::proofs::WordLemmas::words_of_split, crate::proofs::WordLemmas::words_of_lone))]
pub(crate) fn first_word(line: &[u8]) -> (&[u8], Option<&[u8]>)
    ensures { MatchOption result.1 (tokens_of line.now ≡ result.0.now ∷ [])
        (λ rest. tokens_of line.now ≡ result.0.now ∷ tokens_of rest.now) }
{
    match split_at_blank(line) {
        Some((word, rest)) => (word, Some(rest)),
        None => (line, None),
    }
}

/// The only word.
fn only_word(line: &[u8]) -> Option<&[u8]>
    ensures some { IfSome result (λ word. tokens_of line.now ≡ word.now ∷ []) }
    ensures none { IfNone result (length (tokens_of line.now) ≡ 1 → ⊥) }
{
    match first_word(line) {
        (word, None) => Some(word),
        (_, Some(_)) => None,
    }
}

/// The only five words.
fn five_words(line: &[u8]) -> Option<(&[u8], &[u8], &[u8], &[u8], &[u8])>
    ensures some { IfSome result
        (λ w. tokens_of line.now ≡ w.0.now ∷ w.1.now ∷ w.2.now ∷ w.3.now ∷ w.4.now ∷ []) }
    ensures none { IfNone result (length (tokens_of line.now) ≡ 5 → ⊥) }
{
    let (first, rest) = first_word(line);
    let (second, rest) = first_word(rest?);
    let (third, rest) = first_word(rest?);
    let (fourth, rest) = first_word(rest?);
    let fifth = only_word(rest?)?;
    Some((first, second, third, fourth, fifth))
}

/// Whether a word is this text.
fn is_word(word: &[u8], text: &str) -> bool
    ensures { result ≡ bytes_eq word.now text.now }
{
    word == text.as_bytes()
}

/// What a first word announces, if it is one of the four.
pub(crate) fn keyword_in(word: &[u8]) -> Option<Keyword>
    ensures { result ≡ keyword_of word.now }
{
    if is_word(word, "policy") {
        Some(Keyword::Policy)
    } else if is_word(word, "proc") {
        Some(Keyword::Process)
    } else if is_word(word, "destroy") {
        Some(Keyword::Ask(Loss::Gone))
    } else if is_word(word, "empty") {
        Some(Keyword::Ask(Loss::Emptied))
    } else {
        None
    }
}

/// Whether no byte of a word is above 127.
fn is_ascii(word: &[u8]) -> bool
    ensures { result ≡ list_all (λ b. nat_lt b 128) word.now }
{
    word.iter().all(|byte| *byte < 128)
}

/// Whether a word may be the text of a policy, for the reader of policies to judge.
fn is_policy_text(word: &[u8]) -> bool
    ensures { result ≡ is_text word.now }
{
    !word.is_empty() && is_ascii(word)
}

/// A name, or `-` for none.
fn optional_name(word: &[u8]) -> Result<Option<Name>, BadName>
    ensures accepted { IsOk result ↔ IsTrue (option_map_or is_name (known word.now) true) }
    ensures value { IfOk result (λ n. n ≡ known word.now) }
{
    if is_word(word, "-") {
        return Ok(None);
    }
    let name = Name::from_bytes(word)?;
    Ok(Some(name))
}

/// The process of five words; the last two may be `-`.
fn located(
    id: &[u8],
    machine: &[u8],
    zone: &[u8],
    hall: &[u8],
    data_center: &[u8],
) -> Result<Locality, BadName>
    ensures accepted { IsOk result
        ↔ IsTrue (are_names (locality_of id.now machine.now zone.now
        (known hall.now) (known data_center.now))) }
    ensures value { IfOk result (λ l. l ≡ locality_of id.now machine.now zone.now
        (known hall.now) (known data_center.now)) }
{
    Ok(Locality {
        process: Name::from_bytes(id)?,
        machine: Name::from_bytes(machine)?,
        zone: Name::from_bytes(zone)?,
        data_hall: optional_name(hall)?,
        data_center: optional_name(data_center)?,
    })
}

/// The text of a policy, where the words are one that may be a text.
pub(crate) fn policy_text(rest: &[u8]) -> Option<&str>
    ensures { option_map (λ text. policy text.now) result
        ≡ parse_arguments (Some Keyword.Policy) (tokens_of rest.now) }
{
    let word = only_word(rest)?;
    if !is_policy_text(word) {
        return None;
    }
    match str::from_utf8(word) {
        Ok(text) => Some(text),
        // What has no byte above 127 is text.
        Err(_) => unreachable!(),
    }
}

/// A process, where the words are its five.
pub(crate) fn process_of(rest: &[u8]) -> Option<Locality>
    ensures { option_map process result
        ≡ parse_arguments (Some Keyword.Process) (tokens_of rest.now) }
{
    let (id, machine, zone, hall, data_center) = five_words(rest)?;
    // No `.ok()` here: the borrow checker finds no plan for one of a locality.
    match located(id, machine, zone, hall, data_center) {
        Ok(locality) => Some(locality),
        Err(BadName) => None,
    }
}

/// The ID of an ask, where the words are one name.
pub(crate) fn asked_id(rest: &[u8]) -> Option<Name>
    ensures { (loss : Loss) → option_map (ask loss) result
        ≡ parse_arguments (Some (Keyword.Ask loss)) (tokens_of rest.now) }
{
    let id = only_word(rest)?;
    Name::from_bytes(id).ok()
}
