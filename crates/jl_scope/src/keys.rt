#![tactic(auto, using(jl_ast::proofs::Views::nodes, crate::proofs::Firsts::lists))]

ghost use Rattle.std.specs.Prelude.{◌≡◌, OnOk};
ghost use Rattle.jl_ast.specs.View.{view_entry, view_entries};
ghost use Rattle.jl_scope.specs.Kinds.{first_from};
ghost use Rattle.jl_scope.specs.inner.Steps.{scope_of, keys_of};
ghost use Rattle.jl_scope.specs.NameSets.{SameKeys};
ghost use Rattle.jl_scope.specs.EarlyErrors.{key_early_errors, literal_early_errors, no_keys, with_key};

use crate::found::Found;
use crate::name_set::NameSet;
use crate::rules::EarlyRule;
use crate::scope::Scope;
use jl_ast::Entry;
use jl_text::NoMemory;

/// The keys of an object literal before one of its properties.
#[derive(Drop)]
pub(crate) struct Keys<'a> {
    values: NameSet<'a>,
    getters: NameSet<'a>,
    setters: NameSet<'a>,
}

/// What is wrong with the keys of an object literal (11.1.5). It takes the logarithm of their number for each, whatever
/// the keys.
pub(crate) fn offer_keys(
    entries: &[Entry],
    s: &Scope<'_>,
    found: &mut Found<'_>,
) -> Result<(), NoMemory>
    ensures { OnOk result (found.new
        ≡ first_from found.old (literal_early_errors (scope_of s.now) no_keys (view_entries entries.now))) }
{
    let mut keys = Keys {
        values: NameSet::new(s.alloc),
        getters: NameSet::new(s.alloc),
        setters: NameSet::new(s.alloc),
    };
    for entry in entries {
        offer_key(entry, &mut keys, s, found)?;
    }
    Ok(())
}

fn offer_key<'a>(
    entry: &'a Entry,
    keys: &mut Keys<'a>,
    s: &Scope<'_>,
    found: &mut Found<'_>,
) -> Result<(), NoMemory>
    ensures keys { OnOk result (SameKeys (keys_of keys.new) (with_key (keys_of keys.old) (view_entry entry.now))) }
    ensures found { OnOk result (found.new
        ≡ first_from found.old (key_early_errors (scope_of s.now) (keys_of keys.old) (view_entry entry.now))) }
{
    match entry {
        Entry::Value(key, _) => {
            let is_getter = keys.getters.contains(key.text.units());
            let is_setter = keys.setters.contains(key.text.units());
            let is_new = keys.values.insert(key.text.units())?;
            found.offer_if(is_getter || is_setter, EarlyRule::KeyClash, key.span);
            found.offer_if(s.strict && !is_new, EarlyRule::StrictKey, key.span);
            Ok(())
        }
        Entry::Get(key, _) => {
            let is_value = keys.values.contains(key.text.units());
            let is_new = keys.getters.insert(key.text.units())?;
            found.offer_if(is_value || !is_new, EarlyRule::KeyClash, key.span);
            Ok(())
        }
        Entry::Set(key, _) => {
            let is_value = keys.values.contains(key.text.units());
            let is_new = keys.setters.insert(key.text.units())?;
            found.offer_if(is_value || !is_new, EarlyRule::KeyClash, key.span);
            Ok(())
        }
    }
}
