//! Reading a whole file.
ghost use Rattle.std.specs.Prelude.{◌≡◌, ◌<◌, ◌≤◌, ◌↔◌, length, None, Ok, IsTrue, IfOk, IfSome, IsErrOf};
ghost use Rattle.sx_edge.specs.Loads.{Loads, HasReadCause};
ghost use Rattle.sx_edge.specs.declared.whole_file.LoadRefused.TheVariants.{ReadFault, Memory};

use crate::Store;
use std::alloc::{AllocError, Global};
use sx_base::Failed;

/// The greatest length in bytes of a file that is loaded: 1 GiB.
pub const GREATEST_FILE: usize = 1_073_741_824;

// How many bytes one read asks for.
const PIECE: usize = 65_536;

/// Why a file wasn't loaded.
#[derive(Clone, Copy, Debug, PartialEq, Eq)]
pub enum LoadRefused {
    /// It has more bytes than [`GREATEST_FILE`].
    TooLarge,
    /// The store failed.
    ReadFault,
    /// There isn't memory enough to hold it.
    Memory,
}

impl From<Failed> for LoadRefused {
    ghost from_gives = { λ _ refused. refused ≡ ReadFault };

    fn from(_: Failed) -> Self {
        LoadRefused::ReadFault
    }
}

impl From<AllocError> for LoadRefused {
    ghost from_gives = { λ _ refused. refused ≡ Memory };

    fn from(_: AllocError) -> Self {
        LoadRefused::Memory
    }
}

/// The bytes of the file of that name, or `None` where the store has none.
///
/// `TooLarge` comes once more than [`GREATEST_FILE`] bytes were read, `ReadFault` where a call of the store failed, and
/// `Memory` only where the file was started. The file is held once, and read in pieces of 64 KiB.
pub fn load<S: Store>(
    alloc: Global,
    store: &mut S,
    name: &str,
) -> Result<Option<Vec<u8>>, LoadRefused>
    ensures contents { S.contents store.new ≡ S.contents store.old }
    ensures told { Loads (S.contents store.old) name.now result }

    // Over every store, also one that doesn't tell its contents.
    ensures none { (result ≡ Ok None) ↔ IsTrue (S.absent store.new) }
    ensures too_large { IsErrOf result LoadRefused.TooLarge → GREATEST_FILE < S.given store.new }
    ensures within { IfOk result (λ file. IfSome file (λ bytes. length bytes.items ≤ GREATEST_FILE)) }
    ensures given { IfOk result (λ file. IfSome file (λ bytes. S.given store.new ≡ length bytes.items)) }
    ensures cause { HasReadCause (S.faults store.old) (S.faults store.new) result }
{
    match store.start(name) {
        Ok(true) => Ok(Some(read_to_end(alloc, store)?)),
        Ok(false) => Ok(None),
        Err(failed) => Err(LoadRefused::from(failed)),
    }
}

// The bytes left of a file that was just started.
fn read_to_end<S: Store>(alloc: Global, store: &mut S) -> Result<Vec<u8>, LoadRefused>
    requires { S.given store.old ≡ 0 }
    ensures contents { S.contents store.new ≡ S.contents store.old }
    ensures absent { S.absent store.new ≡ S.absent store.old }
    ensures too_large { IsErrOf result LoadRefused.TooLarge → GREATEST_FILE < S.given store.new }
    ensures within { IfOk result (λ bytes. length bytes.items ≤ GREATEST_FILE) }
    ensures given { IfOk result (λ bytes. S.given store.new ≡ length bytes.items) }
    ensures cause { HasReadCause (S.faults store.old) (S.faults store.new) result }
    ensures whole { IfOk result (λ bytes. IfSome (S.left store.old) (λ left. bytes.items ≡ left)) }
    ensures longer { IsErrOf result LoadRefused.TooLarge → IfSome (S.left store.old) (λ left. GREATEST_FILE < length left) }
{
    let mut bytes = Vec::new(alloc);
    let mut piece = [0; PIECE];
    loop {
        let len = store.read(&mut piece)?;
        if len == 0 {
            return Ok(bytes);
        }
        if len > GREATEST_FILE - bytes.len() {
            return Err(LoadRefused::TooLarge);
        }
        bytes.extend_from_slice(&piece[..len])?;
    }
}
