ghost use Rattle.std.specs.Prelude.{◌≡◌, ◌<◌, List, length, slice_get};

// A code and its cost.
#[derive(Clone, Copy)]
pub(crate) struct Entry {
    pub code: u8,
    pub cost: u16,
}

// What a join combines of a vector: some of its entries, one after another.
// Stays (plain): they are read by their place. An iterator instead would be a struct of its own for each kind of entries, with its state
// and the laws of iterators, where this is one method without any.
pub(crate) trait Entries {
    ghost use Rattle.joiner.specs.declared.entry.Entry.{Entry};

    ghost entries: { Self → List Entry };

    fn len(&self) -> usize
        ensures { result ≡ length (entries self.now) };

    fn at(&self, k: usize) -> Entry
        requires { k < length (entries self.now) }
        ensures { slice_get (entries self.now) k ≡ Some result };
}
