// The number of the calls. It stands here twice, in specs/Version.antt, in include/dilbreth.h and include/dilbreth.pas, and in rust/dilbreth/src/version.rs; rust/compare/tests/version.rs holds them together.
ghost use Rattle.std.specs.Prelude.{◌≡◌};
ghost use Rattle.dilbreth.specs.Version.{VERSION};

// Hands the number back.
#[unsafe(no_mangle)]
pub extern "C" fn dilbreth_version() -> u32
    ensures { result ≡ VERSION }
{
    10
}

// The same by a name that no archive of another number has: the header refers to it, so that the linker names it as missing.
#[unsafe(no_mangle)]
pub extern "C" fn dilbreth_version_10() -> u32
    ensures { result ≡ VERSION }
{
    dilbreth_version()
}
