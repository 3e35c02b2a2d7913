//! Where evidence is read: a store of named files.
ghost use Rattle.std.specs.Prelude.{◌≡◌, ℕ, Bool, Option, List, drop, IfOk};
ghost use Rattle.std.specs.Io.{ReadsAtMost};
ghost use Rattle.std.specs.Io.KnownBytes.{ReadConsumes};
ghost use Rattle.sx_base.specs.Causes.{HasCause};
ghost use Rattle.sx_base.specs.Files.{Files};
ghost use Rattle.sx_edge.specs.Store.{Starts, answers_absent, given_after};

use sx_base::Failed;

/// Named files that can only be read, one at a time from its start to its end. No call writes.
pub trait Store {
    /// The files, where the store tells them. They never change.
    ghost contents: { Self → Option Files };

    /// The bytes left of the started file, where the store tells them.
    ghost left: { Self → Option (List ℕ) };

    /// How often a call has failed. The count never falls.
    ghost faults: { Self → ℕ };

    /// Whether the last start answered that there is no such file.
    ghost absent: { Self → Bool };

    /// How many bytes were given since the last start, up to 2^64 - 1.
    ghost given: { Self → ℕ };

    /// Starts a file at its first byte, and says whether there is one of that name. Where there is none, or the start
    /// fails, nothing is left to be read.
    ///
    /// Fails only where the count of faults rose in this call.
    fn start(&mut self, name: &str) -> Result<bool, Failed>
        ensures contents { contents self.new ≡ contents self.old }
        ensures left { Starts (contents self.old) name.now (left self.new) result }
        ensures absent { absent self.new ≡ answers_absent result }
        ensures given { given self.new ≡ 0 }
        ensures cause { HasCause (faults self.old) (faults self.new) result };

    /// Moves the first bytes that are left to the front of `buf`, and says how many: 0 only where nothing is left or
    /// `buf` is empty. The rest of `buf` stays as it was.
    ///
    /// Fails only where the count of faults rose in this call. Then the bytes left stay, and `buf` may hold anything.
    fn read(&mut self, buf: &mut [u8]) -> Result<usize, Failed>
        ensures contents { contents self.new ≡ contents self.old }
        ensures bound { ReadsAtMost result buf.new }
        ensures bytes { ReadConsumes (left self.old) (left self.new) result buf.new }
        ensures rest { IfOk result (λ n. drop n buf.new ≡ drop n buf.old) }
        ensures absent { absent self.new ≡ absent self.old }
        ensures given { given self.new ≡ given_after (given self.old) result }
        ensures cause { HasCause (faults self.old) (faults self.new) result };
}
