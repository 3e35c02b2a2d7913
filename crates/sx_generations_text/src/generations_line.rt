//! The place of a line of `generations`.

/// The next line of `generations`. Runs, commits of a run and groups are numbered from 0.
#[derive(Clone, Copy)]
pub enum GenerationsLine {
    /// How many runs there are.
    Runs,
    /// A run, or behind the last one how many groups there are.
    Run(u32),
    /// A commit of a run, or behind its last one what comes behind the run.
    Commit(u32, u32),
    /// A group.
    Group(u32),
}
