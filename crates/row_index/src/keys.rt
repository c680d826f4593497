//! Additions to ordered sets, and a range query on ordered counts.
ghost use Rattle.std.specs.Prelude.{◌≡◌, if◌then◌else◌, OnOk};
ghost use Rattle.std.specs.BTreeMap.Range.{range_contains, IsLeBy};
ghost use Rattle.std.specs.BTreeSet.{insert_key};
ghost use Rattle.std.specs.List.{list_any};
ghost use Rattle.std.specs.Map.{keys_of};
ghost use Rattle.std.specs.declared.ops.Bound.TheVariants.{Included};

use hazard_types::Oom;
use std::collections::{BTreeMap, BTreeSet};

/// Adds a key, which may be there already.
///
/// # Errors
///
/// Out of memory.
pub fn add_key<K: Ord + Drop>(keys: &mut BTreeSet<K>, key: K) -> Result<(), Oom>
    ensures { OnOk result (keys.new.keys ≡ insert_key K.cmp keys.old.keys key) }
{
    keys.insert(key)?;
    Ok(())
}

/// Adds a key to the set if `counts` is true. The key may be there already.
///
/// # Errors
///
/// Out of memory.
pub fn add_counted<K: Ord + Drop>(keys: &mut BTreeSet<K>, counts: bool, key: K) -> Result<(), Oom>
    ensures { OnOk result
        (keys.new.keys ≡ (if counts then insert_key K.cmp keys.old.keys key else keys.old.keys)) }
{
    if counts {
        add_key(keys, key)?;
    }
    Ok(())
}

/// Whether the map has a key from `from` to `to`, both included. `from` must not be greater than
/// `to`.
pub fn any_between<K: Ord + Drop>(counts: &BTreeMap<K, usize>, from: K, to: K) -> bool
    requires { IsLeBy K.cmp from to }
    ensures { result ≡ list_any (range_contains K.cmp (Included from) (Included to))
        (keys_of counts.now.entries) }
{
    counts.range(from..=to).next().is_some()
}
