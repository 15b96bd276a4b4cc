/// Whether a seat that waits is due to go on, and whether it was woken for that.
#[derive(Clone, Copy, Debug, PartialEq, Eq)]
pub enum Notice {
    /// It has no notice: nothing has come for it since it last asked. It is due only while all that wait are due.
    Nothing,
    /// It is due, and was not woken yet.
    Due,
    /// It is due and was woken. It asks next.
    Woken,
}
