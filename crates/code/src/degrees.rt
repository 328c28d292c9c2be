ghost use Rattle.std.specs.Prelude.{◌≡◌};
ghost use Rattle.code.specs.Admission.{column_degree, column_fits, degree_place, first, row_degree, row_fits};

use crate::table::{Edge, Header};

// Stays (plain): rows and columns differ in the field and the bounds. A shared form would take both, and each
// of its calls would be as long as one of these lines.
// Each edge gives 1 or 0 to a sum, since `filter` and `count` branch at each edge, and a sum takes many at a time.
fn row_degree(edges: &[Edge], row: u16) -> usize
    ensures { result ≡ row_degree edges.now row }
{
    edges.iter().map(|e| usize::from(e.row == row)).sum()
}

fn column_degree(edges: &[Edge], column: u16) -> usize
    ensures { result ≡ column_degree edges.now column }
{
    edges.iter().map(|e| usize::from(e.column == column)).sum()
}

fn row_fits(edges: &[Edge], row: u16) -> bool
    ensures { result ≡ row_fits edges.now row }
{
    (2..=16).contains(&row_degree(edges, row))
}

fn column_fits(edges: &[Edge], column: u16) -> bool
    ensures { result ≡ column_fits edges.now column }
{
    (1..=8).contains(&column_degree(edges, column))
}

fn first_bad_row(edges: &[Edge], rows: u16) -> Option<u16>
    ensures { result ≡ first (row_fits edges.now) 0 rows }
{
    (0..rows).find(|&row| !row_fits(edges, row))
}

fn first_bad_column(edges: &[Edge], columns: u16) -> Option<u16>
    ensures { result ≡ first (column_fits edges.now) 0 columns }
{
    (0..columns).find(|&column| !column_fits(edges, column))
}

// The first row, or else column, with too few or too many edges: rows from 0, columns from M on.
pub(crate) fn degree_place(h: Header, edges: &[Edge]) -> Option<usize>
    ensures { result ≡ degree_place h edges.now }
{
    first_bad_row(edges, h.rows).map(usize::from).or_else(|| {
        first_bad_column(edges, h.columns).map(|j| usize::from(h.rows) + usize::from(j))
    })
}
