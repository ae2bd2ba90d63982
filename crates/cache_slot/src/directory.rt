//! The directory's name.
ghost use Rattle.std.specs.Prelude.{◌≡◌};
ghost use Rattle.std.specs.Option.{option_copied};
ghost use Rattle.cache_slot.specs.Directory.{dir_of};

/// The name, where there is one.
pub fn dir_str(dir: &Option<String>) -> Option<&str>
    ensures { option_copied result ≡ dir_of dir.now }
{
    match dir {
        Some(dir) => Some(dir.as_str()),
        None => None,
    }
}
