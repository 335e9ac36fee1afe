// What is in scope where an operand stands.
ghost use Rattle.std.specs.Prelude.{◌≡◌};
ghost use Rattle.check_operand.specs.Tables.{TablesRight};

use forms::{Form, Ranges, Size};

// What is in scope: how many families, the rows of the table of operands, and how many index variables and open loops.
#[derive(Clone, Copy, Debug, PartialEq, Eq)]
pub struct Visible {
    pub families: usize,
    pub first: usize,
    pub count: usize,
    pub variables: usize,
    pub loops: usize,
}

// The tables that operands are looked up in, and what is in scope of them: the kinds and the sizes of operands, and the low and the high
// forms of the open loops.
#[derive(Clone, Copy)]
pub struct Scope<'a> {
    pub visible: Visible,
    pub kinds: &'a [u16],
    pub sizes: &'a [Size],
    pub lows: &'a [Form],
    pub highs: &'a [Form],
    ghost right: { TablesRight visible kinds.now sizes.now lows.now highs.now },
}

impl Scope<'_> {
    // What a form is shown under here.
    pub fn ranges(&self) -> Ranges<'_>
        ensures variables { result.variables ≡ self.now.visible.variables }
        ensures loops { result.loops ≡ self.now.visible.loops }
        ensures lows { result.lows.now ≡ self.now.lows.now }
        ensures highs { result.highs.now ≡ self.now.highs.now }
    {
        Ranges {
            variables: self.visible.variables,
            loops: self.visible.loops,
            lows: self.lows,
            highs: self.highs,
        }
    }
}
