//! The library's version.
ghost use Rattle.std.specs.Prelude.{◌≡◌};

/// That of `topichub --version`, as 1,000,000 times its first part, 1,000 times its second, and its
/// third.
pub const VERSION: u32 = 1_000;

/// The version of the library, as a number.
#[unsafe(no_mangle)]
pub extern "C" fn topichub_version() -> u32
    ensures { result ≡ 1000 }
{
    VERSION
}
