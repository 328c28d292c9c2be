ghost use Rattle.std.specs.Prelude.{◌≡◌, ◌≤◌, length};
ghost use Rattle.code.specs.Views.{view};
ghost use Rattle.tree.specs.Places.{width};
ghost use Rattle.tree.specs.Frame.{area_words, parts_of, within};

use crate::within::blocks_within;
use code::code::Code;

// Stays (plain): here and in `symbols` each function asks that the area has the code's words, and there that the field has the code's
// order. A struct of the code, the field and the area that holds these facts would be made anew after each write to the area, which is
// lent mutably in between, with as many proofs as now.

// Whether no channel cost exceeds the ceiling.
pub fn channel_low(code: &Code, area: &[u16]) -> bool
    requires { area_words (view code.now) ≤ length area.now }
    ensures { result ≡ within (view code.now) (view code.now).header.columns (parts_of (view code.now) area.now).channel }
{
    let header = code.header();
    blocks_within(
        area,
        header.order as usize,
        0,
        header.columns as usize,
        header.ceiling,
    )
}

// Whether no to-check cost exceeds the ceiling.
pub fn to_check_low(code: &Code, area: &[u16]) -> bool
    requires { area_words (view code.now) ≤ length area.now }
    ensures { result ≡ within (view code.now) (width (view code.now)) (parts_of (view code.now) area.now).to_check }
{
    let header = code.header();
    blocks_within(
        area,
        header.order as usize,
        2 * header.columns as usize,
        code.edges().len(),
        header.ceiling,
    )
}
