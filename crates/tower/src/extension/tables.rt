ghost use Rattle.std.specs.Prelude.{◌≡◌, ◌≤◌};
ghost use Rattle.field.specs.Tables.{least};
ghost use Rattle.field.specs.Grids.{entry};

// The first code below q at which row `a` of a table holds `value`.
pub(crate) fn solve(table: &[u8; 4096], q: u8, value: u8, a: u8) -> Option<u8>
    requires { q ≤ 64 }
    ensures { result ≡ least q (entry 64 table.now) a value }
{
    if a >= q {
        return None;
    }
    (0..q).find(|b| table[a as usize * 64 + *b as usize] == value)
}
