//! Looks up names.

ghost use Rattle.std.specs.Prelude.{◌≡◌, map, string_bytes};
ghost use Rattle.app_toml.specs.Crossed.{is_among};

pub(crate) fn is_among(name: &str, names: &[String]) -> bool
    ensures { result ≡ is_among name.now (map string_bytes names.now) }
{
    for each in names {
        if each.as_str() == name {
            return true;
        }
    }
    false
}
