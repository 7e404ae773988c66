//! How a log is to be cut.

ghost use Rattle.std.specs.Prelude.{◌≤◌};

/// What the flags say.
#[derive(Debug, Drop)]
pub struct SplitArguments {
    /// How many parts there are to be.
    pub parts: u64,
    /// The folder for the files of the parts.
    pub into: String,
    /// The member that names a line's key.
    pub key: String,
    /// How many lines stand above the first line of the log.
    pub first: u64,
    /// Whether standard error is to tell how far the log has been read.
    pub progress: bool,
    ghost some: { 1 ≤ parts },
    ghost few: { parts ≤ 1024 },
}
