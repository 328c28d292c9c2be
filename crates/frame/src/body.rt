ghost use Rattle.std.specs.Prelude.{◌≡◌};
ghost use Rattle.tree.specs.Rows.{round_pairs};
ghost use Rattle.tree.specs.Frame.{parts_of};
ghost use Rattle.frame.specs.Round.{code_of, Ready, Moved};

use crate::blocks::Sizes;
use crate::costs::{begin, costs, settle};
use crate::step::Joins;
use crate::sums::sums;
use code::table::{Edge, Entry, Header};
use field::Field;
use joiner::Joiner;

// One round over the area: N blocks of channel costs, N of distances, W of to-check and W of from-check costs, then 36 of scratch.
// Rows first, from the to-check costs as they are; then the columns' sums, the new to-check costs and the distances.
pub fn body<F: Field, J: Joiner>(
    field: &F,
    joiner: &J,
    header: Header,
    edges: &[Edge],
    entries: &[Entry],
    area: &mut [u16],
) -> u32
    requires order { (F.Field.meaning field.now).order ≡ header.order }
    requires ready { Ready (code_of header edges.now entries.now) area.old }
    ensures pairs { result ≡ round_pairs (J.Joiner.pairs joiner.now) (F.Field.meaning field.now) (code_of header edges.now entries.now) (parts_of (code_of header edges.now entries.now) area.old).to_check }
    ensures area { Moved (F.Field.meaning field.now) (code_of header edges.now entries.now) (J.Joiner.pairs joiner.now) area.old area.new }
{
    let sizes = Sizes {
        q: header.order as usize,
        n: header.columns as usize,
    };
    let to = sizes.n + sizes.n;
    let from = to + edges.len();
    let joins = Joins {
        field,
        joiner,
        ceiling: header.ceiling,
        scratch: from + edges.len(),
    };
    let pairs = joins.rows(edges, area, to, from, header.rows);
    begin(area, sizes);
    sums(edges, entries, area, sizes);
    costs(edges, header.ceiling, area, sizes);
    settle(area, sizes);
    pairs
}
