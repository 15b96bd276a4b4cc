/// What is to be done next.
#[derive(Clone, Copy, Debug, PartialEq, Eq)]
pub enum Step {
    /// Nothing, until more is accepted or the step under way has ended.
    Nothing,
    /// Set the file's length to this one.
    Cut(u64),
    /// Make the file at least this long, with zeros at its end.
    Grow(u64),
    /// Store the text's bytes from the first place up to the second, at that place of the file.
    Store(u64, u64),
    /// Sync the file.
    Sync,
    /// Sync the folder that has the file's name.
    SyncFolder,
}

/// Why bytes were not accepted.
#[derive(Clone, Copy, Debug, PartialEq, Eq)]
pub enum Unaccepted {
    /// The file is not open.
    Closed,
    /// Too many bytes are not synced yet: accept these after a sync.
    Full,
    /// The file would become too long, or these bytes alone are more than may be unsynced.
    NoRoom,
}
