// Elimination: the check matrix of a code, laid into lent bytes and reduced.
ghost use Rattle.std.specs.Prelude.{◌≡◌, ℕ, ◌+◌, ◌*◌, ◌<◌, ◌≤◌, length, None, slice_index_or};
ghost use Rattle.linear.specs.Elimination.{Reduced};
ghost use Rattle.encoder.specs.Bytes.{laid, Products};
ghost use Rattle.encoder.specs.CheckMatrix.{Listed, matrix_of};

use code::code::Code;
use code::table::Edge;
use field::Field;

// What stays the same while a matrix is reduced: the field, the products of any two of its codes, and the matrix's size.
// Stays (plain): the struct does not hold the matrix's bytes. Each method that writes them would then have to promise that it keeps rows
// and columns, since a caller knows no size after it otherwise; that is three clauses for the one or two that now say what the bytes hold.
// Stays (rule): the table of products and the owners, which both calls make, are fixed memory of the greatest size, cut to the size in use.
#[derive(Drop)]
pub(crate) struct Elimination<'f, F: Field> {
    pub(crate) field: &'f F,
    pub(crate) products: &'f [u8; 4096],
    pub(crate) rows: usize,
    pub(crate) columns: usize,
    ghost multiplied: { Products (F.Field.meaning field.now) products.now },
    ghost rows_high: { rows ≤ 128 },
    ghost columns_high: { columns ≤ 256 },
}

impl<'f, F: Field> Elimination<'f, F> {
    // For matrices of the code's size, with the field's table of products.
    pub(crate) fn new(field: &'f F, products: &'f [u8; 4096], code: &Code) -> Self
        requires { Products (F.Field.meaning field.now) products.now }
        ensures field { result.field.now ≡ field.now }
        ensures rows { result.rows ≡ code.now.header.rows }
        ensures columns { result.columns ≡ code.now.header.columns }
    {
        let header = code.header();
        Elimination {
            field,
            products,
            rows: header.rows as usize,
            columns: header.columns as usize,
        }
    }

    // Stays (plain): the methods on one row or entry ask that its row and column are in range, each of the numbers that it takes. A place
    // that carries both would be made from them before each call, and ask the same there.
    // Where row `r` begins.
    pub(crate) fn start(&self, r: usize) -> usize
        requires { r < self.now.rows }
        ensures is { result ≡ r * self.now.columns }
        ensures within { result + self.now.columns ≤ self.now.rows * self.now.columns }
        ensures small { result + self.now.columns ≤ 32768 }
    {
        r * self.columns
    }

    // Where the entry in row `r` and column `c` stands.
    pub(crate) fn place(&self, r: usize, c: usize) -> usize
        requires row { r < self.now.rows }
        requires column { c < self.now.columns }
        ensures is { result ≡ r * self.now.columns + c }
        ensures within { result < self.now.rows * self.now.columns }
    {
        self.start(r) + c
    }

    // Lays the matrix of the edges and reduces it, so that `owners` has the check column of each row that has one.
    pub(crate) fn eliminate(&self, edges: &[Edge], owners: &mut [Option<u16>], matrix: &mut [u8])
        requires listed { Listed (F.Field.meaning self.now.field.now).order self.now.rows self.now.columns edges.now }
        requires room { self.now.rows * self.now.columns ≤ length matrix.old }
        requires owners { length owners.old ≡ self.now.rows }
        requires fresh { (r : ℕ) → r < self.now.rows → slice_index_or owners.old r None ≡ None }
        ensures { Reduced (F.Field.meaning self.now.field.now) (matrix_of self.now.rows self.now.columns edges.now) (laid matrix.new self.now.rows self.now.columns) 0 owners.new }
    {
        self.lay(edges, matrix);
        self.reduce(matrix, owners);
    }
}
