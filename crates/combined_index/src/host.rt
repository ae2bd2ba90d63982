//! The functions that the system gives to a program.
ghost use Rattle.std.specs.Prelude.{◌≡◌};
ghost use Rattle.combined_index.specs.Liveness.{is_host};

/// Whether a name is that of `putchar` or `getchar` (ISO C, section 7.21.7).
pub(crate) fn is_host(name: &[u8]) -> bool
    ensures { result ≡ is_host name.now }
{
    name == b"putchar".as_slice() || name == b"getchar".as_slice()
}
