//! Returns the release of the archive.

ghost use Rattle.std.specs.Prelude.{◌≡◌, pos};

/// The version: 10000 times the first number of the release, plus 100 times its second, plus its
/// third.
const VERSION: i64 = 300;

/// Returns the version of the archive.
#[unsafe(no_mangle)]
pub extern "C" fn stunp_endpoint_version() -> i64
    ensures { result ≡ pos 300 }
{
    VERSION
}

/// Returns the version of the archive. Each release that breaks compatibility changes the name of
/// this call. A program that defines `STUNP_CHECK_RELEASE` refers to this name, so it does not link
/// with an archive of an incompatible release.
#[unsafe(no_mangle)]
pub extern "C" fn stunp_endpoint_release_0_3() -> i64
    ensures { result ≡ pos 300 }
{
    VERSION
}
