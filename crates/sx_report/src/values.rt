//! What a report tells, as JSON values.
ghost use Rattle.std.specs.Prelude.{◌≡◌, IfOk};
ghost use Rattle.std.specs.Option.{option_map};
ghost use Rattle.serde_json.specs.View.{view};
ghost use Rattle.sx_report.specs.Facts.{file_by, log_by, journal_by};
ghost use Rattle.sx_report.specs.Report.{file_data, moment_data, wal_data, journal_data};

use crate::facts::{FileFacts, JournalFacts, MomentFacts, WalFacts};
use serde_json::{Value, json};
use std::alloc::{AllocError, Global};
use sx_lines::{journal_state_name, put_moment, wal_state_name};

/// A file.
pub fn file_value(alloc: Global, facts: &FileFacts) -> Result<Value, AllocError>
    ensures { IfOk result (λ value. view value ≡ file_data (file_by facts.now)) }
{
    json!(in alloc; {"bytes": facts.bytes, "sha256": &facts.sha256})
}

/// A write-ahead log, where there is one.
pub fn wal_value(alloc: Global, facts: &Option<WalFacts>) -> Result<Value, AllocError>
    ensures { IfOk result (λ value. view value ≡ wal_data (option_map log_by facts.now)) }
{
    match facts {
        None => Ok(Value::Null),
        Some(log) => json!(in alloc; {
            "broken": log.broken,
            "bytes": log.file.bytes,
            "committed": log.committed,
            "foreign": log.foreign,
            "frames": log.frames,
            "pending": log.pending,
            "sha256": &log.file.sha256,
            "state": wal_state_name(log.state),
        }),
    }
}

/// A rollback journal, where there is one.
pub fn journal_value(alloc: Global, facts: &Option<JournalFacts>) -> Result<Value, AllocError>
    ensures { IfOk result (λ value. view value ≡ journal_data (option_map journal_by facts.now)) }
{
    match facts {
        None => Ok(Value::Null),
        Some(journal) => json!(in alloc; {
            "bytes": journal.file.bytes,
            "good": journal.good,
            "records": journal.records,
            "sha256": &journal.file.sha256,
            "state": journal_state_name(journal.state),
        }),
    }
}

/// A moment.
pub fn moment_value(alloc: Global, facts: &MomentFacts) -> Result<Value, AllocError>
    ensures { IfOk result (λ value. view value ≡ moment_data facts.now) }
{
    let mut at = String::new(alloc);
    put_moment(facts.at, &mut at)?;
    json!(in alloc; {
        "at": &at,
        "dead": facts.dead,
        "fault": facts.fault,
        "held": facts.held,
        "owned": facts.owned,
        "pages": facts.pages,
        "slack": facts.slack,
        "uncertain": facts.uncertain,
    })
}
