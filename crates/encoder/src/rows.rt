// Elimination: rows of a matrix in lent bytes, over any field.
ghost use Rattle.std.specs.Prelude.{◌≡◌, ℕ, ◌+◌, ◌*◌, ◌<◌, ◌≤◌, length, None, MatchOption, ◌≢◌, slice_index, slice_index_or};
ghost use Rattle.linear.specs.Elimination.{Added, OneCleared, Cleared, Reduced};
ghost use Rattle.encoder.specs.Bytes.{laid, CodesLaid, Idle};

use crate::elimination::Elimination;
use crate::{codes, owners};
use field::Field;

impl<'f, F: Field> Elimination<'f, F> {
    // Adds `factor` times row `source` to row `target`.
    fn add_row(&self, matrix: &mut [u8], target: usize, source: usize, factor: u8)
        requires codes { CodesLaid (F.Field.meaning self.now.field.now).order matrix.old self.now.rows self.now.columns }
        requires target { target < self.now.rows }
        requires source { source < self.now.rows }
        requires apart { target ≢ source }
        requires factor { factor < (F.Field.meaning self.now.field.now).order }
        ensures { Added (F.Field.meaning self.now.field.now) (laid matrix.old self.now.rows self.now.columns) (laid matrix.new self.now.rows self.now.columns) target source factor self.now.columns }
    {
        let multiples = self.multiples(factor);
        let to = self.start(target);
        let from = self.start(source);
        // Stays (plain): both rows lie in one lent slice. To go over them side by side it would have to be cut between them, in one way for
        // each order of the two.
        for j in 0..self.columns {
            let more = multiples[matrix[from + j] as usize];
            matrix[to + j] = codes::plus(self.field, matrix[to + j], more);
        }
    }

    // Adds to row `r` the multiple of row `i` that takes its entry in column `c` away; `inverse` is that of the entry of row `i`.
    fn clear_row(&self, matrix: &mut [u8], r: usize, i: usize, c: usize, inverse: u8)
        requires codes { CodesLaid (F.Field.meaning self.now.field.now).order matrix.old self.now.rows self.now.columns }
        requires row { r < self.now.rows }
        requires source { i < self.now.rows }
        requires apart { r ≢ i }
        requires column { c < self.now.columns }
        requires code { inverse < (F.Field.meaning self.now.field.now).order }
        requires inverse { (F.Field.meaning self.now.field.now).product (slice_index matrix.old (i * self.now.columns + c)) inverse ≡ 1 }
        ensures { OneCleared (F.Field.meaning self.now.field.now) (laid matrix.old self.now.rows self.now.columns) (laid matrix.new self.now.rows self.now.columns) i c r }
    {
        let entry = matrix[self.place(r, c)];
        if entry != 0 {
            self.add_row(matrix, r, i, self.cancelling(entry, inverse));
        }
    }

    // Clears column `c` from all rows but row `i`, which has an entry there.
    fn clear(&self, matrix: &mut [u8], i: usize, c: usize)
        requires codes { CodesLaid (F.Field.meaning self.now.field.now).order matrix.old self.now.rows self.now.columns }
        requires row { i < self.now.rows }
        requires column { c < self.now.columns }
        requires pivot { slice_index matrix.old (i * self.now.columns + c) ≢ 0 }
        ensures codes { CodesLaid (F.Field.meaning self.now.field.now).order matrix.new self.now.rows self.now.columns }
        ensures cleared { Cleared (F.Field.meaning self.now.field.now) (laid matrix.old self.now.rows self.now.columns) (laid matrix.new self.now.rows self.now.columns) i c }
    {
        let inverse = codes::inverse_of(self.field, matrix[self.place(i, c)]);
        for r in 0..self.rows {
            if r != i {
                self.clear_row(matrix, r, i, c, inverse);
            }
        }
    }

    // The first row that owns no column and has an entry in column `c`.
    fn find_row(&self, matrix: &[u8], owners: &[Option<u16>], c: usize) -> Option<usize>
        requires room { self.now.rows * self.now.columns ≤ length matrix.now }
        requires owners { length owners.now ≡ self.now.rows }
        requires column { c < self.now.columns }
        ensures { MatchOption result ((k : ℕ) → k < self.now.rows → slice_index_or owners.now k None ≡ None → slice_index matrix.now (k * self.now.columns + c) ≡ 0) (λ i. (i < self.now.rows) × Idle matrix.now self.now.columns owners.now c i) }
    {
        (0..self.rows).find(|r| matrix[self.place(*r, c)] != 0 && owners[*r].is_none())
    }

    // From the last column down: a row that owns no column and has an entry there becomes the owner, and all others are cleared of it.
    pub(crate) fn reduce(&self, matrix: &mut [u8], owners: &mut [Option<u16>])
        requires codes { CodesLaid (F.Field.meaning self.now.field.now).order matrix.old self.now.rows self.now.columns }
        requires owners { length owners.old ≡ self.now.rows }
        requires fresh { (r : ℕ) → r < self.now.rows → slice_index_or owners.old r None ≡ None }
        ensures { Reduced (F.Field.meaning self.now.field.now) (laid matrix.old self.now.rows self.now.columns) (laid matrix.new self.now.rows self.now.columns) 0 owners.new }
    {
        for c in (0..self.columns).rev() {
            if let Some(i) = self.find_row(matrix, owners, c) {
                self.clear(matrix, i, c);
                owners::give(owners, i, c);
            }
        }
    }
}
