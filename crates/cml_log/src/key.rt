use std::marker::Model;

/// The name of a cursor, in the log that opened it. The log may reuse the key of a closed cursor.
#[derive(Clone, Copy, Debug, PartialEq, Eq)]
pub struct Key(pub(crate) usize);

impl Model for Key {
    ghost use Rattle.std.specs.Prelude.{ℕ};

    ghost Value = { ℕ };

    ghost view = { λ key. key.0 };

    ghost inverse = { λ number. record { 0 = number } };
}
