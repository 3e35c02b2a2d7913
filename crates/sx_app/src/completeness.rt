//! What an examination answers where nothing failed.
ghost use Rattle.std.specs.Prelude.{◌≡◌, ◌⊎◌, ◌++◌, ℕ, List, Option, Some, Result, Err, IsErrOf};
ghost use Rattle.sx_base.specs.Causes.{Rose};
ghost use Rattle.sx_base.specs.Files.{Files};
ghost use Rattle.sx_words.specs.Words.{Asked};
ghost use Rattle.sx_app.specs.Answers.{Answers, answer};
ghost use Rattle.sx_app.specs.declared.refused.Refused.{Refused};

/// Where a store tells its files, a sink the bytes that it took, and neither count of faults rose, an examination has
/// the result of its answer and wrote the whole text, or memory ran out.
///
/// This is a law of the contract of `examine`: its premises are the clauses `told`, `read_fault` and `write_fault`. The
/// function has no code.
#[tactic(auto, using(crate::proofs::Complete::complete))]
pub fn answers_are_complete()
    ensures { (asked : Option Asked) (files : Files) (store_before store_now sink_before sink_now : ℕ) (taken : List ℕ) (now : Option (List ℕ)) (result : Result (Unit {0}) Refused)
        → Answers (answer asked files) (Some taken) now result
        → (IsErrOf result Refused.ReadFault → Rose store_before store_now)
        → (IsErrOf result Refused.WriteFault → Rose sink_before sink_now)
        → (Rose store_before store_now → ⊥)
        → (Rose sink_before sink_now → ⊥)
        → (result ≡ Err Refused.Memory) ⊎ ((result ≡ (answer asked files).result) × (now ≡ Some (taken ++ (answer asked files).text))) }
{}
