// The library's version, so that a program can hold its header to the archive that it is linked with.
ghost use Rattle.std.specs.Prelude.{◌≡◌};

// major × 10,000 + minor × 100 + patch.
const VERSION: u32 = 500;

#[unsafe(no_mangle)]
pub extern "C" fn tandawire_version() -> u32
    ensures { result ≡ 500 }
{
    VERSION
}
