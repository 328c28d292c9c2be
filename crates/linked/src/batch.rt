ghost use Rattle.std.specs.Prelude.{◌≡◌, ◌<◌, length};
ghost use Rattle.code.specs.Views.{view};
ghost use Rattle.linked.specs.Frames.{parts, fit};

use crate::decode::{Decoded, Decoder, columns, order};
use field::Field;
use joiner::Joiner;

// How many parts of this size are whole.
fn whole(len: usize, size: usize) -> usize
    requires { 0 < size }
    ensures { result ≡ parts len size }
{
    len / size
}

impl<F: Field, J: Joiner> Decoder<'_, '_, F, J> {
    // Decodes as many frames as there are costs, words and outcomes for, and tells how many.
    pub fn batch(
        &self,
        costs: &[u16],
        area: &mut [u16],
        distances: &mut [u16],
        words: &mut [u8],
        decoded: &mut [Decoded],
    ) -> usize
        ensures { result ≡ fit (view self.now.code.now).header.columns (view self.now.code.now).header.order (length costs.now) (length words.old) (length decoded.old) }
    {
        let n = columns(self.code);
        let size = n * order(self.code);
        let frames = whole(costs.len(), size)
            .min(whole(words.len(), n))
            .min(decoded.len());
        let each = costs.chunks_exact(size).zip(words.chunks_exact_mut(n));
        for ((costs, word), decoded) in each.zip(decoded.iter_mut()) {
            *decoded = self.decode(costs, area, distances, word);
        }
        frames
    }
}
