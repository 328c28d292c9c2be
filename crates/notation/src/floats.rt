ghost use Rattle.notation.specs.Floats.{FloatRead};

use crate::written::Written;
use std::str::from_utf8;

// The float that a text writes in decimal, or `inf` or `NaN`, as the standard library reads it.
impl Written for f32 {
    ghost reads = { FloatRead };

    fn read(text: &[u8]) -> Option<f32> {
        from_utf8(text).ok()?.parse().ok()
    }
}
