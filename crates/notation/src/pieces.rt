ghost use Rattle.std.specs.Prelude.{◌≡◌, ◌==◌, drop, length};
ghost use Rattle.std.specs.Iterator.{at_most};
ghost use Rattle.std.specs.List.{position};
ghost use Rattle.sheet.specs.Pieces.{split};
ghost use Rattle.notation.specs.Pieces.{FirstReads, Gives, pieces_of};

use crate::written::Written;

// The pieces of a text between the bytes `stop`, one after another: one more than there are such bytes.
// Stays (plain): the slice's own `split` takes a closure, whose type has no name that a struct could hold it by.
#[derive(Clone, Copy)]
pub struct Parts<'a> {
    stop: u8,
    // What is still to be cut; nothing once the last piece was taken.
    rest: Option<&'a [u8]>,
}

// Where the first `stop` stands.
// Stays (plain): the reader of sheets has one like it, but told as a length, which is the text's own where none stands; here
// it must be told whether one stands.
fn first_stop(text: &[u8], stop: u8) -> Option<usize>
    ensures { result ≡ position (λ b. b == stop) text.now }
{
    text.iter().position(|b| *b == stop)
}

impl<'a> Parts<'a> {
    // The pieces of a text, all to come.
    pub fn new(text: &'a [u8], stop: u8) -> Parts<'a>
        ensures { pieces_of result ≡ split stop text.now }
    {
        Parts {
            stop,
            rest: Some(text),
        }
    }

    // The value that the next piece writes; the piece is taken also where it writes none.
    pub fn read<T: Written>(&mut self) -> Option<T>
        ensures value { FirstReads T.reads (pieces_of self.old) result }
        ensures rest { pieces_of self.new ≡ drop 1 (pieces_of self.old) }
    {
        T::read(self.next()?)
    }
}

impl<'a> Iterator for Parts<'a> {
    type Item = &'a [u8];

    ghost next_gives = { λ s r t. Gives (pieces_of s) r (pieces_of t) };

    ghost remaining = { λ s. at_most (length (pieces_of s)) };

    fn next(&mut self) -> Option<&'a [u8]> {
        let text = self.rest?;
        match first_stop(text, self.stop) {
            Some(n) => {
                self.rest = Some(&text[n + 1..]);
                Some(&text[..n])
            }
            None => {
                self.rest = None;
                Some(text)
            }
        }
    }
}
