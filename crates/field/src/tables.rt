ghost use Rattle.std.specs.Prelude.{ℕ, ◌<◌, length};
ghost use Rattle.field.specs.Grids.{Fills};

// Fills bytes by their places: with what `f` answers at each, and 0 where it answers nothing.
pub fn fill<F: Fn(usize) -> Option<u8>>(bytes: &mut [u8], f: F)
    requires { (k : ℕ) → k < length bytes.old → F.pre f k }
    ensures { Fills (F.post f) (length bytes.old) bytes.new }
{
    for (k, byte) in bytes.iter_mut().enumerate() {
        *byte = f(k).unwrap_or(0);
    }
}
