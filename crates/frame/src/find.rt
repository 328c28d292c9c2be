ghost use Rattle.std.specs.Prelude.{◌≡◌, ◌<◌, length};
ghost use Rattle.frame.specs.Columns.{before, Rising, HasAt, position_of};

use code::table::Edge;

// Whether an edge comes before the place of a row and a column.
fn comes_before(edge: Edge, row: u16, column: u16) -> bool
    ensures { result ≡ before edge row column }
{
    (edge.row, edge.column) < (row, column)
}

// The position of the edge that stands at a row and a column: as many edges come before it.
pub fn edge_at(edges: &[Edge], row: u16, column: u16) -> usize
    requires rising { Rising edges.now }
    requires there { HasAt edges.now row column }
    ensures answer { result ≡ position_of edges.now row column }
    ensures within { result < length edges.now }
{
    edges.partition_point(|edge| comes_before(*edge, row, column))
}
