ghost use Rattle.std.specs.Prelude.{◌≡◌, ◌<◌, ◌≤◌};
ghost use Rattle.code.specs.Views.{view};

use code::code::Code;
use due::{Told, none_fails, told_of};
use field::Field;
use frame::{LoadingSlip, RunningSlip, conclude, load, open, read, round, start};
use joiner::Joiner;

// What became of a frame: the rounds made, what the last one told, and whether the word was concluded.
// Stays (rule): it is a struct of C, which has no options, so `concluded` stands beside numbers that are told also where it is false.
#[repr(C)]
#[derive(Clone, Copy)]
pub struct Decoded {
    pub pairs: u32,
    pub rounds: u16,
    pub failing: u16,
    pub concluded: bool,
}

// A frame that was not begun.
const REFUSED: Decoded = Decoded {
    pairs: 0,
    rounds: 0,
    failing: 0,
    concluded: false,
};

// Stays (plain): this and the next tell two numbers of the same header, each with its own bound.
// The order q, which is 1 to 64.
pub fn order(code: &Code) -> usize
    ensures order { result ≡ (view code.now).header.order }
    ensures some { 0 < result }
    ensures few { result ≤ 64 }
{
    code.header().order as usize
}

// The number N of columns, which is 1 to 256.
pub fn columns(code: &Code) -> usize
    ensures columns { result ≡ (view code.now).header.columns }
    ensures some { 0 < result }
    ensures few { result ≤ 256 }
{
    code.header().columns as usize
}

// Loads the columns' costs, q after q.
fn load_all(code: &Code, slip: &LoadingSlip, area: &mut [u16], costs: &[u16]) {
    let columns = 0..code.header().columns;
    for (column, values) in columns.zip(costs.chunks_exact(order(code))) {
        let _ = load(code, slip, area, column, values);
    }
}

// Copies each column's distances, q after q, and writes its decided symbol.
fn read_all(code: &Code, slip: &RunningSlip, area: &[u16], distances: &mut [u16], word: &mut [u8]) {
    let columns = 0..code.header().columns;
    let blocks = distances.chunks_exact_mut(order(code));
    for ((column, symbol), distances) in columns.zip(word.iter_mut()).zip(blocks) {
        if let Ok(decided) = read(code, slip, area, column, distances) {
            *symbol = decided;
        }
    }
}

// By what frames are decoded.
#[derive(Drop)]
pub struct Decoder<'d, 'c, F, J> {
    pub field: &'d F,
    pub joiner: &'d J,
    pub code: &'d Code<'c>,
}

impl<F: Field, J: Joiner> Decoder<'_, '_, F, J> {
    // Makes rounds until no row fails or no round is granted, and tells what the last one told.
    fn rounds(&self, slip: &mut RunningSlip, area: &mut [u16]) -> Told {
        let mut last = told_of(0, 0, 0);
        for _ in 0..self.code.header().limit {
            let Ok(told) = round(self.field, self.joiner, self.code, slip, area) else {
                break;
            };
            last = told;
            if none_fails(told.failing) {
                break;
            }
        }
        last
    }

    // Decodes one frame, unless its costs or its area are refused.
    fn begun(
        &self,
        costs: &[u16],
        area: &mut [u16],
        distances: &mut [u16],
        word: &mut [u8],
    ) -> Option<Decoded> {
        let loading = open(self.field, self.code, area).ok()?;
        load_all(self.code, &loading, area, costs);
        let mut slip = start(self.code, loading, area).ok()?;
        let told = self.rounds(&mut slip, area);
        read_all(self.code, &slip, area, distances, word);
        let concluded = conclude(self.field, self.code, slip, area, word).is_ok();
        Some(Decoded {
            pairs: told.pairs,
            rounds: told.rounds,
            failing: told.failing,
            concluded,
        })
    }

    // Decodes one frame, from open to conclude. The word is the decided symbols, also where a row fails.
    pub fn decode(
        &self,
        costs: &[u16],
        area: &mut [u16],
        distances: &mut [u16],
        word: &mut [u8],
    ) -> Decoded {
        self.begun(costs, area, distances, word).unwrap_or(REFUSED)
    }
}
