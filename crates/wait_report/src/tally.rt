//! What is kept of keys, looked up and written by key.

ghost use Rattle.std.specs.Prelude.{◌≡◌, ◌+◌, ◌≤◌, IsOk, OnOk};
ghost use Rattle.std.specs.Map.{lookup};
ghost use Rattle.indexmap.specs.IndexMap.{insert_entry};

use arc_costs::{Digits, KeyTree};
use byte_text::OutOfMemory;

/// What a key has.
pub fn value_of<K: Digits, V: Copy>(tally: &KeyTree<K, V>, key: &K) -> Option<V>
    ensures { result ≡ lookup (K.eq key.now) tally.now.entries }
{
    let index = tally.index_of(key)?;
    Some(tally.rows()[index].1)
}

/// Writes what a key has.
pub fn put<K: Digits, V: Copy>(
    tally: &mut KeyTree<K, V>,
    key: K,
    value: V,
) -> Result<(), OutOfMemory>
    ensures entries { OnOk result (tally.new.entries ≡ insert_entry K.eq tally.old.entries key value) }
    ensures spare { tally.old.spare ≤ tally.new.spare + 1 }
    ensures succeeds { 1 ≤ tally.old.spare → IsOk result }
{
    match tally.index_of(&key) {
        Some(index) => {
            tally.set(index, value);
            Ok(())
        }
        None => tally.push(key, value),
    }
}
