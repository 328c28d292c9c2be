ghost use Rattle.std.specs.Prelude.{◌≡◌};
ghost use Rattle.notation.specs.Samples.{Measures, SampleRead, plain_of};

use crate::written::Written;
use sampling::Sample;

// A sample that was not measured.
fn plain(text: &[u8]) -> Option<Sample>
    ensures { result ≡ plain_of text.now }
{
    match text {
        b"lost" => Some(Sample::Lost),
        b"0" => Some(Sample::Known(false)),
        b"1" => Some(Sample::Known(true)),
        _ => None,
    }
}

fn measured(text: &[u8]) -> Option<Sample>
    ensures { Measures text.now result }
{
    f32::read(text).map(Sample::Measured)
}

// A sample: `lost`, the known bit `0` or `1`, or `~` and the float that was measured.
impl Written for Sample {
    ghost reads = { SampleRead };

    fn read(text: &[u8]) -> Option<Sample> {
        match text {
            [b'~', float @ ..] => measured(float),
            _ => plain(text),
        }
    }
}
