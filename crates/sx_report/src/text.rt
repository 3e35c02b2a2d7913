//! The text of a report.
ghost use Rattle.std.specs.Prelude.{◌≡◌, ◌++◌, ◌∷◌, true, false, codes, IfOk, OnOk, string_bytes};
ghost use Rattle.serde_json.specs.View.{view};
ghost use Rattle.serde_json.specs.Written.{comma_if, compact_text, has_float};
ghost use Rattle.sx_report.specs.Facts.{facts_by};
ghost use Rattle.sx_report.specs.Report.{report_text};
ghost use Rattle.sx_report.specs.Rest.{end_text, front_text, item_text, name_text, member_text, moments_rest};

use crate::facts::{CaseFacts, MomentFacts};
use crate::values::{file_value, journal_value, moment_value, wal_value};
use serde_json::Value;
use std::alloc::{AllocError, Global};

/// The text of a report: one JSON object (RFC 8259) without white space and without a line feed behind it, its members in
/// the order of their names.
///
/// The moments are written one by one, so that besides the text no more is in memory than the values of one of them.
/// `AllocError` comes where memory runs out. The cost is that of the text.
#[tactic(auto, using(crate::proofs::Joined::report_joined))]
pub fn case_json(alloc: Global, facts: &CaseFacts) -> Result<Vec<u8>, AllocError>
    ensures { IfOk result (λ text. text.items ≡ report_text (facts_by facts.now)) }
{
    let mut text = String::new(alloc);
    put_front(alloc, facts, &mut text)?;
    put_moments(alloc, facts.moments.as_slice(), &mut text)?;
    put_end(alloc, facts, &mut text)?;
    Ok(text.into_bytes())
}

// Puts the members before the moments behind what `text` holds.
#[tactic(auto, unfolding(crate::specs::Rest::front_text), using(crate::proofs::Floats::no_float_in_journal))]
fn put_front(alloc: Global, facts: &CaseFacts, text: &mut String) -> Result<(), AllocError>
    ensures { OnOk result (string_bytes text.new ≡ string_bytes text.old ++ front_text (facts_by facts.now)) }
{
    text.push('{')?;
    let candidates = Value::from(facts.candidates);
    put_member(alloc, false, "candidates", &candidates, text)?;
    let database = file_value(alloc, &facts.database)?;
    put_member(alloc, true, "database", &database, text)?;
    let journal = journal_value(alloc, &facts.journal)?;
    put_member(alloc, true, "journal", &journal, text)
}

// Puts the moments behind what `text` holds.
fn put_moments(alloc: Global, moments: &[MomentFacts], text: &mut String) -> Result<(), AllocError>
    ensures { OnOk result (string_bytes text.new ≡ string_bytes text.old ++ (name_text true (codes "moments") ++ 91 ∷ moments_rest false moments.now)) }
{
    put_name(alloc, true, "moments", text)?;
    text.push('[')?;
    put_items(alloc, moments, text)
}

// Puts the moments and the bracket that closes their list behind what `text` holds.
fn put_items(alloc: Global, moments: &[MomentFacts], text: &mut String) -> Result<(), AllocError>
    ensures { OnOk result (string_bytes text.new ≡ string_bytes text.old ++ moments_rest false moments.now) }
{
    let mut later = false;
    for moment in moments {
        put_item(alloc, later, moment, text)?;
        later = true;
    }
    text.push(']')
}

// Puts the members behind the moments, and the brace that closes the object, behind what `text` holds.
#[tactic(auto, unfolding(crate::specs::Rest::end_text), using(crate::proofs::Floats::no_float_in_log))]
fn put_end(alloc: Global, facts: &CaseFacts, text: &mut String) -> Result<(), AllocError>
    ensures { OnOk result (string_bytes text.new ≡ string_bytes text.old ++ end_text (facts_by facts.now)) }
{
    let page_size = Value::from(facts.page_size);
    put_member(alloc, true, "pagesize", &page_size, text)?;
    let usable = Value::from(facts.usable);
    put_member(alloc, true, "usable", &usable, text)?;
    let wal = wal_value(alloc, &facts.wal)?;
    put_member(alloc, true, "wal", &wal, text)?;
    text.push('}')
}

// Puts a moment behind what `text` holds, and a comma before it where others stand there.
#[tactic(auto, unfolding(crate::specs::Rest::item_text))]
fn put_item(
    alloc: Global,
    later: bool,
    moment: &MomentFacts,
    text: &mut String,
) -> Result<(), AllocError>
    ensures { OnOk result (string_bytes text.new ≡ string_bytes text.old ++ item_text later moment.now) }
{
    put_comma(later, text)?;
    let value = moment_value(alloc, moment)?;
    put_value(alloc, &value, text)
}

// Puts a member behind what `text` holds.
#[tactic(auto, unfolding(crate::specs::Rest::member_text, crate::specs::Rest::name_text))]
fn put_member(
    alloc: Global,
    later: bool,
    name: &str,
    value: &Value,
    text: &mut String,
) -> Result<(), AllocError>
    requires { has_float (view value.now) ≡ false }
    ensures { OnOk result (string_bytes text.new ≡ string_bytes text.old ++ member_text later name.now (view value.now)) }
{
    put_name(alloc, later, name, text)?;
    put_value(alloc, value, text)
}

// Puts a member's name and its colon behind what `text` holds, and a comma before it where others stand there.
#[tactic(auto, unfolding(crate::specs::Rest::name_text))]
fn put_name(alloc: Global, later: bool, name: &str, text: &mut String) -> Result<(), AllocError>
    ensures { OnOk result (string_bytes text.new ≡ string_bytes text.old ++ name_text later name.now) }
{
    put_comma(later, text)?;
    let name = Value::try_from_str(alloc, name)?;
    put_value(alloc, &name, text)?;
    text.push(':')
}

// Puts a comma behind what `text` holds, where it is wanted.
fn put_comma(wanted: bool, text: &mut String) -> Result<(), AllocError>
    ensures { OnOk result (string_bytes text.new ≡ string_bytes text.old ++ comma_if wanted) }
{
    if wanted {
        text.push(',')?;
    }
    Ok(())
}

// Puts a value behind what `text` holds.
fn put_value(alloc: Global, value: &Value, text: &mut String) -> Result<(), AllocError>
    requires { has_float (view value.now) ≡ false }
    ensures { OnOk result (string_bytes text.new ≡ string_bytes text.old ++ compact_text (view value.now)) }
{
    let written = value.to_string(alloc)?;
    text.push_str(written.as_str())
}
