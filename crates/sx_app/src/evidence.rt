//! The evidence that the words name, opened, loaded and gathered.
ghost use Rattle.std.specs.Prelude.{◌≡◌, ◌≤◌, ◌++◌, length, IfOk, IfErr, IfSome};
ghost use Rattle.sx_base.specs.Files.{file_named};
ghost use Rattle.sx_edge.specs.declared.whole_file.TheConstants.{GREATEST_FILE};
ghost use Rattle.sx_moment.specs.Limits.{IsSmall};
ghost use Rattle.sx_app.specs.Evidence.{database_in, database_of, companion_in, companions_of, evidence_of, case_of};
ghost use Rattle.sx_app.specs.Loaded.{opened_by, bytes_by, companions_by, evidence_by, IsWithin};
ghost use Rattle.sx_app.specs.Owed.{Gives, HasCauses, HasUsed};
ghost use Rattle.sx_app.specs.Stages.{MayMeet, Opening, Loading, MayOpen};

use crate::database::Database;
use crate::loaded::{Companions, Loaded};
use crate::refused::Refused;
use std::alloc::{AllocError, Global};
use sx_base::Part;
use sx_edge::{LoadRefused, Store, load};
use sx_header::read_header;
use sx_moment::{Case, Evidence};

/// Opens the evidence of a database's name: the database, its write-ahead log and its journal are read, in this order.
///
/// The refusals come in this order: a read fault, no database, a database that is too large; its header; a read fault
/// of the write-ahead log, one that is too large; a read fault of the journal, one that is too large. Memory may run
/// out at each step.
#[tactic(auto, unfolding(crate::specs::Evidence::evidence_of))]
pub fn open_evidence<S: Store>(alloc: Global, store: &mut S, db: &str) -> Result<Loaded, Refused>
    ensures contents { S.contents store.new ≡ S.contents store.old }
    ensures told { IfSome (S.contents store.old) (λ files. Gives evidence_by result (evidence_of files db.now)) }
    ensures causes { HasCauses (S.faults store.old) (S.faults store.new) (S.absent store.new) (S.given store.new) result }
    ensures may { IfErr result MayOpen }
    ensures used { HasUsed (S.contents store.old) db.now result }
{
    let database = open_database(alloc, store, db)?;
    let beside = load_companions(alloc, store, db)?;
    Ok(Loaded { database, beside })
}

// The database, read whole, with its header.
#[tactic(auto, unfolding(crate::specs::Evidence::database_of))]
fn open_database<S: Store>(alloc: Global, store: &mut S, db: &str) -> Result<Database, Refused>
    ensures contents { S.contents store.new ≡ S.contents store.old }
    ensures told { IfSome (S.contents store.old) (λ files. Gives opened_by result (database_of files db.now)) }
    ensures causes { HasCauses (S.faults store.old) (S.faults store.new) (S.absent store.new) (S.given store.new) result }
    ensures may { IfErr result (MayMeet Opening) }
    ensures used { HasUsed (S.contents store.old) db.now result }
{
    let bytes = load_database(alloc, store, db)?;
    match read_header(&bytes) {
        Ok(header) => Ok(Database { header, bytes }),
        Err(fault) => Err(Refused::BadHeader(fault)),
    }
}

// The database's bytes.
#[tactic(auto, unfolding(crate::specs::Evidence::database_in))]
fn load_database<S: Store>(alloc: Global, store: &mut S, db: &str) -> Result<Vec<u8>, Refused>
    ensures contents { S.contents store.new ≡ S.contents store.old }
    ensures told { IfSome (S.contents store.old) (λ files. Gives (λ bytes. bytes.items) result (database_in (file_named files db.now))) }
    ensures small { IfOk result (λ bytes. length bytes.items ≤ GREATEST_FILE) }
    ensures causes { HasCauses (S.faults store.old) (S.faults store.new) (S.absent store.new) (S.given store.new) result }
    ensures may { IfErr result (MayMeet Opening) }
    ensures used { HasUsed (S.contents store.old) db.now result }
{
    match load(alloc, store, db) {
        Ok(Some(bytes)) => Ok(bytes),
        Ok(None) => Err(Refused::NoDatabase),
        Err(LoadRefused::TooLarge) => Err(Refused::TooLarge(Part::Database)),
        Err(LoadRefused::ReadFault) => Err(Refused::ReadFault),
        Err(LoadRefused::Memory) => Err(Refused::Memory),
    }
}

// The files beside the database, each read whole where it is there.
#[tactic(auto, unfolding(crate::specs::Evidence::companions_of))]
fn load_companions<S: Store>(alloc: Global, store: &mut S, db: &str) -> Result<Companions, Refused>
    ensures contents { S.contents store.new ≡ S.contents store.old }
    ensures told { IfSome (S.contents store.old) (λ files. Gives companions_by result (companions_of files db.now)) }
    ensures causes { HasCauses (S.faults store.old) (S.faults store.new) (S.absent store.new) (S.given store.new) result }
    ensures may { IfErr result (MayMeet Loading) }
{
    let wal = load_companion(alloc, store, db, Part::Wal, "-wal")?;
    let journal = load_companion(alloc, store, db, Part::Journal, "-journal")?;
    Ok(Companions { wal, journal })
}

// The bytes of the file of the database's name with `ending` behind it, where there is one. It is that part of the
// evidence, one that lies beside the database.
#[tactic(auto, unfolding(crate::specs::Evidence::companion_in))]
fn load_companion<S: Store>(
    alloc: Global,
    store: &mut S,
    db: &str,
    part: Part,
    ending: &str,
) -> Result<Option<Vec<u8>>, Refused>
    requires { MayMeet Loading (Refused.TooLarge part) }
    ensures contents { S.contents store.new ≡ S.contents store.old }
    ensures told { IfSome (S.contents store.old) (λ files.
        Gives bytes_by result (companion_in part (file_named files (db.now ++ ending.now)))) }
    ensures within { IfOk result IsWithin }
    ensures causes { HasCauses (S.faults store.old) (S.faults store.new) (S.absent store.new) (S.given store.new) result }
    ensures may { IfErr result (MayMeet Loading) }
{
    let name = format!(in alloc; "{db}{ending}")?;
    match load(alloc, store, name.as_str()) {
        Ok(bytes) => Ok(bytes),
        Err(LoadRefused::TooLarge) => Err(Refused::TooLarge(part)),
        Err(LoadRefused::ReadFault) => Err(Refused::ReadFault),
        Err(LoadRefused::Memory) => Err(Refused::Memory),
    }
}

/// The evidence with its moments. The cost is that of reading the write-ahead log and the journal once, and of
/// comparing each page of a committed frame with that of the file.
pub fn gather(alloc: Global, loaded: &Loaded) -> Result<Case<'_>, AllocError>
    ensures evidence { IfOk result (λ case. case ≡ case_of (evidence_by loaded.now)) }
    ensures small { IfOk result (λ case. IsSmall case.database case.wal_bytes case.journal_bytes) }
{
    let evidence = Evidence {
        database: loaded.database.bytes.as_slice(),
        wal: loaded.beside.wal_bytes(),
        journal: loaded.beside.journal_bytes(),
    };
    Case::gather(alloc, loaded.database.header, evidence)
}
