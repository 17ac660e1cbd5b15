// The keys that were seen last.
ghost use Rattle.std.specs.Prelude.{◌≡◌, ◌+◌, ◌<◌, ◌≤◌, ◌∷◌, false, length, take, OnOk, OnErr};
ghost use Rattle.std.specs.List.{list_any};
ghost use Rattle.std.specs.Map.{keys_of};
ghost use Rattle.lru.specs.LruCache.{lru_cache};
ghost use Rattle.vx_pick.specs.Dedupers.{same_datum};

use crate::dedupe_key::DedupeKey;
use lru::LruCache;
use vx_value::WantOfMemory;

// Keys, the latest first.
pub(crate) type SeenKeys = LruCache<DedupeKey, ()>;

// Adds a key that isn't there as the latest. For want of memory the keys are as before.
pub(crate) fn add(seen: &mut SeenKeys, key: DedupeKey) -> Result<(), WantOfMemory>
    requires absent { list_any (same_datum key) (keys_of seen.old.entries) ≡ false }
    requires room { length seen.old.entries < seen.old.cap }
    ensures ok { OnOk result (seen.new ≡ lru_cache ((key, tt) ∷ seen.old.entries) seen.old.cap) }
    ensures err { OnErr result (seen.new ≡ seen.old) }
{
    match seen.put(key, ()) {
        Ok(_) => Ok(()),
        Err(_) => Err(WantOfMemory),
    }
}

// Takes the oldest key out where there is one more than so many.
pub(crate) fn trim(seen: &mut SeenKeys, most: usize)
    requires { length seen.old.entries ≤ most + 1 }
    ensures { seen.new ≡ lru_cache (take most seen.old.entries) seen.old.cap }
{
    if seen.len() > most {
        let _ = seen.pop_lru();
    }
}
