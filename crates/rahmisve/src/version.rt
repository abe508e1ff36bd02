// The version of the interface: c_numbers.
ghost use Rattle.std.specs.Prelude.{◌≡◌};
ghost use Rattle.c_numbers.specs.Version.{version};

#[unsafe(no_mangle)]
pub extern "C" fn rahmisve_version() -> u32
    ensures { result ≡ version }
{
    c_numbers::rahmisve_version()
}
