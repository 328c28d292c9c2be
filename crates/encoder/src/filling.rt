// The symbols of the owned columns, from the reduced rows.
ghost use Rattle.std.specs.Prelude.{◌≡◌, ℕ, ◌<◌, length, Some, None, slice_index_or};
ghost use Rattle.linear.specs.Elimination.{Owned};
ghost use Rattle.linear.specs.Filling.{FilledTo};
ghost use Rattle.linear.specs.Words.{Codes, row_sum};
ghost use Rattle.encoder.specs.Bytes.{laid, CodesLaid};

use crate::codes;
use crate::elimination::Elimination;
use field::Field;

impl<'f, F: Field> Elimination<'f, F> {
    // The coefficients of row `r` times the symbols, summed.
    fn row_sum(&self, matrix: &[u8], r: usize, word: &[u8]) -> u8
        requires matrix { CodesLaid (F.Field.meaning self.now.field.now).order matrix.now self.now.rows self.now.columns }
        requires row { r < self.now.rows }
        requires word { Codes (F.Field.meaning self.now.field.now).order self.now.columns word.now }
        ensures is { result ≡ row_sum (F.Field.meaning self.now.field.now) (laid matrix.now self.now.rows self.now.columns) word.now r }
        ensures code { result < (F.Field.meaning self.now.field.now).order }
    {
        // Stays (plain): the sum is of the laid matrix, by row and column, and `place` tells where just such an entry lies; a slice of
        // the row would be tied to it by one more step.
        let mut sum = 0;
        for (j, symbol) in word.iter().enumerate() {
            let part = self.product(matrix[self.place(r, j)], *symbol);
            sum = codes::plus(self.field, part, sum);
        }
        sum
    }

    // Fills each owned column with the symbol that its row asks for.
    pub(crate) fn finish(&self, matrix: &[u8], owners: &[Option<u16>], word: &mut [u8])
        requires matrix { CodesLaid (F.Field.meaning self.now.field.now).order matrix.now self.now.rows self.now.columns }
        requires owners { length owners.now ≡ self.now.rows }
        requires owned { (r p : ℕ) → r < self.now.rows → slice_index_or owners.now r None ≡ Some p → Owned (laid matrix.now self.now.rows self.now.columns) 0 r p }
        requires word { Codes (F.Field.meaning self.now.field.now).order self.now.columns word.old }
        ensures { FilledTo (F.Field.meaning self.now.field.now) (laid matrix.now self.now.rows self.now.columns) owners.now word.old word.new self.now.rows }
    {
        for (r, owner) in owners.iter().enumerate() {
            if let Some(c) = *owner {
                let p = c as usize;
                let sum = self.row_sum(matrix, r, word);
                let inverse = codes::inverse_of(self.field, matrix[self.place(r, p)]);
                word[p] = self.cancelling(sum, inverse);
            }
        }
    }
}
