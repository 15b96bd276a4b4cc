/// In what form it is written what a script did.
#[derive(Clone, Copy, Debug, PartialEq, Eq)]
pub enum Form {
    /// As the report, in the script's names.
    Report,
    /// As the journal's text.
    Journal,
}
