ghost use Rattle.std.specs.Prelude.{ℕ, List, Option};

// A value that a text can write.
pub trait Written: Drop {
    // What a text says: the bytes, and the value if they write one.
    ghost reads: { List ℕ → Option Self → Type 0 };

    // The value that the whole text writes.
    fn read(text: &[u8]) -> Option<Self>
        ensures { reads text.now result };
}
