//! What follows from how a log is read, for the layers above.
ghost use Rattle.std.specs.Prelude.{◌≡◌, ◌≢◌, ◌↔◌, ℕ, ◌+◌, ◌<◌, ◌≤◌, List, length, slice_get, slice_index, Some, IsTrue};
ghost use Rattle.std.specs.List.Sorted.{IsStrictlyIncreasing};
ghost use Rattle.sx_base.specs.declared.moment.Class.TheVariants.{Committed};
ghost use Rattle.sx_wal.specs.State.{state_of, has_slots};
ghost use Rattle.sx_wal.specs.Frames.{frame_at, frame_len};
ghost use Rattle.sx_wal.specs.Wal.{IsFrame, is_within, log_of};
ghost use Rattle.sx_wal.specs.declared.slot.Slot.{Slot};

/// The slots of a log are its whole frames: each slot is that of a frame, and where the state has slots at all, each
/// whole frame has one.
pub fn slots_stand()
    ensures whole { (page_size : ℕ) (bytes : List ℕ) (i : ℕ) → IsTrue (has_slots (state_of bytes page_size))
        → (i < length (log_of page_size bytes).slots) ↔ (frame_at page_size i + frame_len page_size ≤ length bytes) }
    ensures frame { (page_size : ℕ) (bytes : List ℕ) (i : ℕ) (slot : Slot)
        → slice_get (log_of page_size bytes).slots i ≡ Some slot → IsFrame page_size bytes i slot }
{}

/// The commits of a log rise, and each has a size; a slot is Committed exactly where a commit is at it or past it.
pub fn commits_stand()
    ensures rising { (page_size : ℕ) (bytes : List ℕ) → IsStrictlyIncreasing (log_of page_size bytes).commits }
    ensures sized { (page_size : ℕ) (bytes : List ℕ) (k : ℕ) (slot : Slot) → k < length (log_of page_size bytes).commits
        → slice_get (log_of page_size bytes).slots (slice_index (log_of page_size bytes).commits k) ≡ Some slot
        → slot.commit_size ≢ 0 }
    ensures committed { (page_size : ℕ) (bytes : List ℕ) (i : ℕ) (slot : Slot)
        → slice_get (log_of page_size bytes).slots i ≡ Some slot
        → (slot.class ≡ Committed) ↔ IsTrue (is_within (log_of page_size bytes).commits i) }
{}
