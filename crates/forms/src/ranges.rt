// The open loops that a form is shown under.
ghost use Rattle.std.specs.Prelude.{◌+◌, ◌≤◌};
ghost use Rattle.language.specs.Limits.{all_variables};
ghost use Rattle.forms.specs.Rows.{Rows};

use crate::Form;

// A family's index variables, so many, and the open loops behind them, with the low and the high form of each, the outermost first.
#[derive(Clone, Copy)]
pub struct Ranges<'a> {
    pub variables: usize,
    pub loops: usize,
    pub lows: &'a [Form],
    pub highs: &'a [Form],
    ghost few: { variables + loops ≤ all_variables },
    ghost low_rows: { Rows lows.now loops },
    ghost high_rows: { Rows highs.now loops },
}
