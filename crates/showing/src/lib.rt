// The showing of a form as a call from C, with how far it goes (include/metaqasm_showing.h).
#![tactic(auto)]

ghost use Rattle.std.specs.Prelude.{◌≡◌, true};
ghost use Rattle.language.specs.Form.{all_in_range};
ghost use Rattle.forms.specs.Flat.{Kept, shown_of};
ghost use Rattle.forms.specs.Rows.{Rows};
ghost use Rattle.showing.specs.Answers.{forms_in_range, are_forms, AreForms, number_of, answered, answer};

use forms::{Form, Ranges, Unshown};
use limits::ALL_VARIABLES;

// The number where the arguments are no forms, which is no number of a refusal.
const NO_FORMS: u32 = 255;

// The answer of a showing: its number, how many loop variables the plain rule went through, and how many trials were made.
#[repr(C)]
#[derive(Clone, Copy)]
pub struct ShowingResult {
    pub number: u32,
    pub through: u32,
    pub trials: u32,
}

// Whether every number of a form is in range.
fn kept(f: &Form) -> bool
    ensures value { result ≡ all_in_range f.now }
    ensures kept { result ≡ true → Kept f.now }
{
    f.iter().all(|z| forms::in_range(*z))
}

// Whether there are n forms at least, and every number of the first n is in range.
fn rows_kept(rows: &[Form], n: usize) -> bool
    ensures value { result ≡ forms_in_range n rows.now }
    ensures rows { result ≡ true → Rows rows.now n }
{
    if rows.len() < n {
        return false;
    }
    for row in &rows[..n] {
        if !kept(row) {
            return false;
        }
    }
    true
}

// The number of a verdict.
fn number(verdict: Result<(), Unshown>) -> u32
    ensures { result ≡ number_of (shown_of verdict) }
{
    match verdict {
        Ok(()) => 0,
        Err(Unshown::NotShown) => 12,
        Err(Unshown::OutOfRange) => 11,
    }
}

// Whether the arguments of a showing are forms, of no more variables than there may be.
fn are_forms(f: &Form, variables: u32, loops: u32, lows: &[Form], highs: &[Form]) -> bool
    ensures value { result ≡ are_forms variables loops f.now lows.now highs.now }
    ensures are_forms { result ≡ true → AreForms variables loops f.now lows.now highs.now }
{
    let n = loops as usize;
    let all = variables as usize + n;
    if ALL_VARIABLES < all {
        return false;
    }
    if !kept(f) {
        return false;
    }
    if !rows_kept(lows, n) {
        return false;
    }
    rows_kept(highs, n)
}

// Shows a form to be 0 or more: 0 shown, 12 not shown, 11 a number out of range on the way, 255 no forms given.
#[unsafe(no_mangle)]
pub extern "C" fn metaqasm_showing(
    f: &Form,
    variables: u32,
    loops: u32,
    lows: &[Form],
    highs: &[Form],
) -> ShowingResult
    ensures { answered result ≡ answer variables loops f.now lows.now highs.now }
{
    if !are_forms(f, variables, loops, lows, highs) {
        return ShowingResult {
            number: NO_FORMS,
            through: 0,
            trials: 0,
        };
    }
    let ranges = Ranges {
        variables: variables as usize,
        loops: loops as usize,
        lows,
        highs,
    };
    let s = forms::show(f, &ranges);
    let through = s.through as u32;
    let trials = s.trials as u32;
    ShowingResult {
        number: number(s.verdict),
        through,
        trials,
    }
}
