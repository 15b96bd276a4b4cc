//! How the program ends.
ghost use Rattle.std.specs.Prelude.{◌≡◌};
ghost use Rattle.cml.specs.{is_script_shown, is_explored_shown};

use crate::check;
use cml_script::status_of;
use thiserror::Error;

/// How the program ends: as what it did ends. It shows as the line for standard error.
#[derive(Debug, Drop, Error)]
pub(crate) enum Ending {
    /// A script was performed.
    #[error("{0}")]
    Performed(cml_script::Ending),
    /// A script was explored.
    #[error("{0}")]
    Explored(cml_explore::Ending),
    /// A journal was checked.
    #[error("{0}")]
    Checked(check::Ending),
}

impl cml_grammar::shell::Ending for Ending {
    ghost use Rattle.cml.specs.Endings.{status, is_shown};

    ghost status = { status };

    ghost is_shown = { is_shown };

    fn no_memory() -> Ending {
        Ending::Performed(cml_script::Ending::NoMemory)
    }

    fn write_fault() -> Ending {
        Ending::Performed(cml_script::Ending::WriteFault)
    }

    fn status(&self) -> u8 {
        match self {
            Ending::Performed(ending) => status_of(ending),
            Ending::Explored(ending) => ending.status(),
            Ending::Checked(ending) => ending.status(),
        }
    }

    fn is_shown(&self) -> bool {
        match self {
            Ending::Performed(ending) => is_script_shown(ending),
            Ending::Explored(ending) => is_explored_shown(ending),
            Ending::Checked(ending) => ending.is_shown(),
        }
    }
}

/// Whether standard error shows how an exploration ended.
fn is_explored_shown(ending: &cml_explore::Ending) -> bool
    ensures { result ≡ is_explored_shown ending.now }
{
    match ending {
        cml_explore::Ending::Script(ending) => is_script_shown(ending),
        cml_explore::Ending::TooMany(_) => true,
    }
}

/// Whether standard error shows how a script ended, because no report says it.
fn is_script_shown(ending: &cml_script::Ending) -> bool
    ensures { result ≡ is_script_shown ending.now }
{
    !matches!(
        ending,
        cml_script::Ending::Done
            | cml_script::Ending::Stalled
            | cml_script::Ending::Full
            | cml_script::Ending::Held
    )
}
