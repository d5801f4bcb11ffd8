// Entries of a table.
ghost use Rattle.std.specs.Prelude.{◌≡◌, map, length};
ghost use Rattle.std.specs.List.{range_with_len};

// The slice's own `fill` asks that a clone cannot fail, which `Copy` does not tell.
pub(crate) fn fill<T: Copy>(entries: &mut [T], entry: T)
    ensures { entries.new ≡ map (λ _. entry) (range_with_len 0 (length entries.old)) }
{
    for old in entries.iter_mut() {
        *old = entry;
    }
}
