//! Words that set keys: `key=value`, split at the first `=`.
ghost use Rattle.std.specs.Prelude.{◌≡◌, count_by, string_bytes};
ghost use Rattle.std.specs.List.{list_all, list_any};
ghost use Rattle.std.specs.Option.{option_copied};
ghost use Rattle.sx_words.specs.Words.{texts, sets, setting_of, are_settings, is_met, key_of, value_of};

use crate::key::{Key, Wanted};

/// Whether the words set keys of a row of the table: each sets one that is in the row, none is set twice, and those that
/// are required are set.
#[tactic(auto, using(crate::proofs::Lists::all_map), unfolding(crate::specs::Words::are_settings))]
pub fn are_settings(row: &[Wanted], words: &[String]) -> bool
    ensures { result ≡ are_settings row.now (texts words.now) }
{
    all_set(row, words) && all_met(row, words)
}

// Whether each word sets one of the keys.
fn all_set(row: &[Wanted], words: &[String]) -> bool
    ensures { result ≡ list_all (λ word. list_any (λ wanted. sets (key_of wanted) (string_bytes word)) row.now) words.now }
{
    words.iter().all(|word| sets_one(row, word.as_str()))
}

// Whether the word sets one of the keys.
fn sets_one(row: &[Wanted], word: &str) -> bool
    ensures { result ≡ list_any (λ wanted. sets (key_of wanted) word.now) row.now }
{
    row.iter()
        .any(|wanted| setting(wanted.key(), word).is_some())
}

// Whether each key is set as the row wants it.
fn all_met(row: &[Wanted], words: &[String]) -> bool
    ensures { result ≡ list_all (λ wanted. is_met wanted (texts words.now)) row.now }
{
    row.iter().all(|wanted| is_met(*wanted, words))
}

// Whether a key is set as the row wants it: once where it is required, at most once where it is allowed.
fn is_met(wanted: Wanted, words: &[String]) -> bool
    ensures { result ≡ is_met wanted (texts words.now) }
{
    match wanted {
        Wanted::Required(key) => times_set(key, words) == 1,
        Wanted::Allowed(key) => times_set(key, words) <= 1,
    }
}

// How many of the words set the key.
fn times_set(key: Key, words: &[String]) -> usize
    ensures { result ≡ count_by (sets key) (texts words.now) }
{
    words
        .iter()
        .filter(|word| setting(key, word.as_str()).is_some())
        .count()
}

/// The value that the first word that sets the key sets it to.
pub fn value_of<'w>(key: Key, words: &'w [String]) -> Option<&'w str>
    ensures { option_copied result ≡ value_of key (texts words.now) }
{
    for word in words {
        if let Some(value) = setting(key, word.as_str()) {
            return Some(value);
        }
    }
    None
}

// What a word sets the key to, where it sets it.
#[tactic(auto, unfolding(crate::specs::Words::setting_of))]
fn setting<'w>(key: Key, word: &'w str) -> Option<&'w str>
    ensures { option_copied result ≡ setting_of key word.now }
{
    match word.split_once('=') {
        Some((name, value)) if name == key.name() && !value.is_empty() => Some(value),
        _ => None,
    }
}
