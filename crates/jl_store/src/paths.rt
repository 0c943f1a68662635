//! The paths of builtins.
ghost use Rattle.std.specs.Prelude.{◌≡◌};
ghost use Rattle.jl_meaning.specs.Realm.{last_part};
ghost use Rattle.jl_store.specs.inner.Paths.{after_dot};

/// What comes after the first dot of a path, or the path where it has none.
fn after_dot(path: &str) -> &str
    ensures { result.now ≡ after_dot path.now }
{
    match path.split_once('.') {
        Some((_, rest)) => rest,
        None => path,
    }
}

/// The last part of a path, which has at most two dots: the name of a builtin as a property.
pub fn last_part(path: &str) -> &str
    ensures { result.now ≡ last_part path.now }
{
    after_dot(after_dot(path))
}
