//! The version of the archive.

ghost use Rattle.std.specs.Prelude.{◌≡◌};

/// The version of the archive, which the header that goes with it has as `BITPACKING_VERSION`: a million times the major number, a
/// thousand times the minor one, and the number of the patch.
#[unsafe(no_mangle)]
// claim: c/9 the version is 2000000
pub extern "C" fn bitpacking_version() -> u32
    ensures { result ≡ 2000000 }
{
    2000000
}
