//! Which messages C asks for.
ghost use Rattle.std.specs.Prelude.{◌≡◌, slice_get};
ghost use Rattle.cml_c.specs.{message_kinds};

/// Which messages a room, a checker or a reading has that C opens.
#[derive(Clone, Copy)]
pub enum MessageKind {
    Numbers,
    Bytes,
}

impl MessageKind {
    /// The kind that has this number in the header.
    pub(crate) fn of(number: u32) -> Option<MessageKind>
        ensures { result ≡ slice_get message_kinds number }
    {
        match number {
            0 => Some(MessageKind::Numbers),
            1 => Some(MessageKind::Bytes),
            _ => None,
        }
    }
}
