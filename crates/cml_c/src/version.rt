//! The library's version.
ghost use Rattle.std.specs.Prelude.{◌≡◌};
ghost use Rattle.cml_c.specs.{number_of_version};

/// The version as one number. The header has it as `SERYUGO_VERSION` and `SERYUGO_VERSION_NUMBER`.
const VERSION: u32 = 512;

/// Returns the library's version: 65536 times the major number, 256 times the minor one, and the patch.
#[unsafe(no_mangle)]
pub extern "C" fn seryugo_version() -> u32
    ensures { result ≡ number_of_version 0 2 0 }
{
    VERSION
}
