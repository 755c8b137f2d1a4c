// The newest entry with a key.
ghost use Rattle.std.specs.Prelude.{◌≡◌, ℕ};
ghost use Rattle.checker.specs.Search.{newest_first, find};

// An entry that tells a whole-number key.
pub trait Keyed {
    ghost key: { Self → ℕ };

    fn key(&self) -> u32
        ensures { result ≡ key self.now };
}

// The newest of the first `count` entries that has this key.
pub fn newest<E: Keyed + Copy>(entries: &[E], count: usize, key: u32) -> Option<E>
    ensures { result ≡ find E.Keyed.key (newest_first entries.now count) key }
{
    let end = count.min(entries.len());
    entries[..end]
        .iter()
        .rev()
        .find(|entry| entry.key() == key)
        .copied()
}
