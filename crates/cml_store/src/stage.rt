/// How far a file has come: each stage of an opening leads to the next one.
#[derive(Clone, Copy, Debug, PartialEq, Eq)]
pub enum Stage {
    /// The file may have more than recovery keeps.
    Dirty,
    /// It is being cut to what recovery keeps.
    Trimming,
    /// It has what recovery keeps, but maybe in memory alone.
    Trimmed,
    /// Its last bytes are being written again.
    Rewriting,
    /// It is being synced.
    Settling,
    /// It is on disk, but its name may not be.
    Unnamed,
    /// Its folder is being synced.
    Naming,
    /// It takes bytes.
    Open,
    /// It has failed for good or is no journal. Nothing more is done to it.
    Lost,
}

/// What is being done to the bytes of an open file.
#[derive(Clone, Copy, Debug, PartialEq, Eq)]
pub enum Work {
    Idle,
    /// The file is being cut to this length.
    Cutting(u64),
    /// The file is being grown to this length.
    Growing(u64),
    /// The bytes from the stored ones up to this place are being stored.
    Storing(u64),
}
