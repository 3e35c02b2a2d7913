//! A worked case.
ghost use Rattle.std.specs.Prelude.{◌≡◌, [], None, false, position, string_bytes};
ghost use Rattle.std.specs.Str.{bytes_eq};

use std::alloc::Global;
use sx_edge::Trip;

/// A worked case, as it is written.
#[derive(Drop)]
pub struct Case {
    /// What it shows.
    pub name: String,
    /// The files of the store.
    pub files: Vec<Named>,
    /// The words after the program's name.
    pub words: Vec<String>,
    /// How many bytes a read and a write take at most.
    pub pieces: usize,
    /// Whether each smaller room of the sink is tried too.
    pub each_room: bool,
    /// The failures that are built into the store.
    pub faults: Vec<Trip>,
    /// Places of a file at each of which reads fail, one place after the other.
    pub each_place: Option<Places>,
    /// The status that it ends with, where it is written.
    pub status: Option<u8>,
    /// The text.
    pub text: String,
}

/// A file of the store, and the file of the folder that holds its bytes.
#[derive(Drop)]
pub struct Named {
    /// Its name.
    pub name: String,
    /// The name of the other.
    pub bytes: String,
}

/// The places of a file from 0 to a last one.
#[derive(Clone, Copy)]
pub struct Places {
    /// The number of the file in the store.
    pub file: u32,
    /// The last place.
    pub last: u64,
}

impl Case {
    /// A case of which only the name is known.
    pub fn new(alloc: Global, name: String) -> Case
        ensures name { result.name ≡ name }
        ensures files { result.files.items ≡ [] }
        ensures words { result.words.items ≡ [] }
        ensures pieces { result.pieces ≡ 65536 }
        ensures each_room { result.each_room ≡ false }
        ensures faults { result.faults.items ≡ [] }
        ensures each_place { result.each_place ≡ None }
        ensures status { result.status ≡ None }
        ensures text { string_bytes result.text ≡ [] }
    {
        Case {
            name,
            files: Vec::new(alloc),
            words: Vec::new(alloc),
            pieces: 65_536,
            each_room: false,
            faults: Vec::new(alloc),
            each_place: None,
            status: None,
            text: String::new(alloc),
        }
    }

    /// The place among the files of the store, from 0, of the first one of that name, if there is one.
    pub fn place(&self, name: &str) -> Option<usize>
        ensures { result ≡ position (λ file. bytes_eq (string_bytes file.name) name.now) self.now.files.items }
    {
        self.files
            .iter()
            .position(|file| file.name.as_str() == name)
    }
}
