// The check matrix from the code's edges: laid in bytes, and its rows on a word.
ghost use Rattle.std.specs.Prelude.{◌≡◌, ℕ, ◌*◌, ◌<◌, ◌≤◌, length};
ghost use Rattle.linear.specs.Rows.{row_fails};
ghost use Rattle.encoder.specs.Bytes.{Below, LaidTo};
ghost use Rattle.encoder.specs.CheckMatrix.{Listed, edge_sum, matrix_of};

use crate::codes;
use crate::elimination::Elimination;
use code::table::Edge;
use field::Field;

impl<'f, F: Field> Elimination<'f, F> {
    // Writes the matrix of the edges, row after row.
    pub(crate) fn lay(&self, edges: &[Edge], matrix: &mut [u8])
        requires room { self.now.rows * self.now.columns ≤ length matrix.old }
        requires listed { Listed (F.Field.meaning self.now.field.now).order self.now.rows self.now.columns edges.now }
        ensures { LaidTo edges.now matrix.new self.now.rows self.now.columns (length edges.now) }
    {
        matrix[0..self.rows * self.columns].fill(0);
        for edge in edges {
            matrix[self.place(edge.row as usize, edge.column as usize)] = edge.coefficient;
        }
    }
}

// The coefficients of the row's edges times the symbols of the word, summed.
// Stays (plain): `row_sum` looks alike, but goes over all columns of a laid row and multiplies by the table; here the row's few edges are
// picked out of all, and the field multiplies. One function for both would take the entries and the product as closures.
fn edge_sum<F: Field>(field: &F, edges: &[Edge], word: &[u8], row: usize) -> u8
    requires listed { (m : ℕ) × Listed (F.Field.meaning field.now).order m (length word.now) edges.now }
    requires codes { Below (F.Field.meaning field.now).order word.now }
    ensures { result ≡ edge_sum (F.Field.meaning field.now) edges.now word.now row (length edges.now) }
{
    let mut sum = 0;
    for edge in edges {
        if edge.row as usize == row {
            let part = codes::times(field, edge.coefficient, word[edge.column as usize]);
            sum = codes::plus(field, part, sum);
        }
    }
    sum
}

// Whether some row of the word does not sum to 0.
pub(crate) fn row_fails<F: Field>(field: &F, edges: &[Edge], word: &[u8], m: usize) -> bool
    requires listed { Listed (F.Field.meaning field.now).order m (length word.now) edges.now }
    requires codes { Below (F.Field.meaning field.now).order word.now }
    ensures { result ≡ row_fails (F.Field.meaning field.now) (matrix_of m (length word.now) edges.now) word.now }
{
    (0..m).any(|row| edge_sum(field, edges, word, row) != 0)
}
