// Index forms: the constant, and then the coefficient of each index variable.
#![tactic(auto)]

ghost use Rattle.std.specs.Prelude.{◌≡◌, true, false, ◌&&◌, OnOk, is_ok, List, ◌+◌, ◌≤◌, ◌<◌, length, get_or, set, drop, replicate, ℤ, pos, ◌+ℤ◌, ◌*ℤ◌};
ghost use Rattle.language.specs.Form.{built, in_range, constant_form, variable_form, sum_of, difference_of, multiple_of, ◌then_build◌, all_zero, same_form, closed, showing_of, plainly, less_range, trial, by_trial, showing, put_in};
ghost use Rattle.form_laws.specs.Settled.{gone_through, remaining};
ghost use Rattle.form_laws.specs.Trials.{trials_for, trials_made};
ghost use Rattle.language.specs.Tree.{Place, product};
ghost use Rattle.language.specs.Limits.{most_variables, most_loops, all_variables};
ghost use Rattle.language.specs.Check.{combined};
ghost use Rattle.forms.specs.declared.Unshown.TheVariants.{OutOfRange as UnshownOutOfRange};
ghost use Rattle.forms.specs.declared.NoProduct.TheVariants.{OutOfRange as ProductOutOfRange};
ghost use Rattle.forms.specs.Products.{product_of};
ghost use Rattle.forms.specs.Flat.{form_numbers, size_numbers, Kept, Short, widened, as_form, built_of, showing_by, shown_of};
ghost use Rattle.forms.specs.Rows.{Rows, loop_at, loops_of, forms_of};
ghost use Rattle.forms.specs.Ranges.{loops_in, all_loops};

mod ranges;

use limits::{ALL_VARIABLES, FURTHEST, MOST_VARIABLES};
pub use ranges::Ranges;

// The numbers of a form: the constant, and a coefficient for each variable.
pub const FORM_NUMBERS: usize = ALL_VARIABLES + 1;

// The numbers of a size in a table: the constant, and a coefficient for each variable of a family.
pub const SIZE_NUMBERS: usize = MOST_VARIABLES + 1;

// The least number of a form.
const LOWEST: i64 = -FURTHEST;

pub type Form = [i64; FORM_NUMBERS];

pub type Size = [i32; SIZE_NUMBERS];

// That a number on the way is out of range.
#[derive(Clone, Copy, Debug, PartialEq, Eq)]
pub struct OutOfRange;

// Why a form is not shown to be 0 or more.
#[derive(Clone, Copy, Debug, PartialEq, Eq)]
pub enum Unshown {
    NotShown,
    OutOfRange,
}

impl From<OutOfRange> for Unshown {
    ghost from_gives = { λ _ e. e ≡ UnshownOutOfRange };

    fn from(_: OutOfRange) -> Unshown {
        Unshown::OutOfRange
    }
}

// Why two forms have no product: a number is out of range, or both have variables.
#[derive(Clone, Copy, Debug, PartialEq, Eq)]
pub enum NoProduct {
    OutOfRange,
    NotLinear,
}

impl From<OutOfRange> for NoProduct {
    ghost from_gives = { λ _ e. e ≡ ProductOutOfRange };

    fn from(_: OutOfRange) -> NoProduct {
        NoProduct::OutOfRange
    }
}

// Whether the plain rule shows a form, and how many loop variables were gone through.
#[derive(Clone, Copy, Debug, PartialEq, Eq)]
pub struct Settling {
    pub verdict: Result<(), Unshown>,
    pub through: usize,
}

// Whether a trial shows a form, and how many trials were made.
#[derive(Clone, Copy, Debug, PartialEq, Eq)]
pub struct Trials {
    pub shown: bool,
    pub made: usize,
}

// Whether a form is shown, how many loop variables the plain rule went through, and how many trials were made after it.
#[derive(Clone, Copy, Debug, PartialEq, Eq)]
pub struct Shown {
    pub verdict: Result<(), Unshown>,
    pub through: usize,
    pub trials: usize,
}

// Whether a form may have the number z.
pub fn in_range(z: i64) -> bool
    ensures { result ≡ in_range z }
{
    LOWEST <= z && z <= FURTHEST
}

// f's number i becomes x plus k times y, if the product and the sum are in range.
fn put_sum(f: &mut Form, i: usize, x: i64, k: i64, y: i64) -> Result<(), OutOfRange>
    requires i_lt_form_numbers { i < form_numbers }
    requires x_value { in_range x ≡ true }
    requires k_value { in_range k ≡ true }
    requires y_value { in_range y ≡ true }
    ensures value { is_ok result ≡ (in_range (k *ℤ y) && in_range (x +ℤ k *ℤ y)) }
    ensures f_after { OnOk result (f.new ≡ set f.old i (x +ℤ k *ℤ y)) }
{
    let p = k * y;
    if !in_range(p) {
        return Err(OutOfRange);
    }
    let z = x + p;
    if !in_range(z) {
        return Err(OutOfRange);
    }
    f[i] = z;
    Ok(())
}

// f's number i becomes itself plus k times y, if the product and the sum are in range.
fn add_number(f: &mut Form, i: usize, k: i64, y: i64) -> Result<(), OutOfRange>
    requires i_lt_form_numbers { i < form_numbers }
    requires pos_value { in_range (get_or f.old i (pos 0)) ≡ true }
    requires k_value { in_range k ≡ true }
    requires y_value { in_range y ≡ true }
    ensures value { is_ok result ≡ (in_range (k *ℤ y) && in_range (get_or f.old i (pos 0) +ℤ k *ℤ y)) }
    ensures f_after { OnOk result (f.new ≡ set f.old i (get_or f.old i (pos 0) +ℤ k *ℤ y)) }
{
    if y == 0 {
        return Ok(());
    }
    let x = f[i];
    put_sum(f, i, x, k, y)
}

// f becomes f plus k times g. Where a number is out of range, what f holds then is of no use.
pub fn add_scaled(f: &mut Form, k: i64, g: &Form) -> Result<(), OutOfRange>
    requires kept { Kept f.old }
    requires k_value { in_range k ≡ true }
    requires kept_2 { Kept g.now }
    ensures f_after { built_of result f.new ≡ (multiple_of k (as_form g.now) then_build sum_of (as_form f.old)) }
    ensures kept_3 { OnOk result (Kept f.new) }
{
    for i in 0..FORM_NUMBERS {
        add_number(f, i, k, g[i])?;
    }
    Ok(())
}

pub fn add(f: &mut Form, g: &Form) -> Result<(), OutOfRange>
    requires kept { Kept f.old }
    requires kept_2 { Kept g.now }
    ensures f_after { built_of result f.new ≡ sum_of (as_form f.old) (as_form g.now) }
    ensures kept_3 { OnOk result (Kept f.new) }
{
    add_scaled(f, 1, g)
}

pub fn subtract(f: &mut Form, g: &Form) -> Result<(), OutOfRange>
    requires kept { Kept f.old }
    requires kept_2 { Kept g.now }
    ensures f_after { built_of result f.new ≡ difference_of (as_form f.old) (as_form g.now) }
    ensures kept_3 { OnOk result (Kept f.new) }
{
    add_scaled(f, -1, g)
}

// f becomes f + z.
pub fn add_constant(f: &mut Form, z: i64) -> Result<(), OutOfRange>
    requires kept { Kept f.old }
    requires z_value { in_range z ≡ true }
    ensures f_after { built_of result f.new ≡ sum_of (as_form f.old) (constant_form z) }
    ensures kept_2 { OnOk result (Kept f.new) }
{
    add_number(f, 0, 1, z)
}

// f becomes the form of a number.
pub fn set_constant(f: &mut Form, z: i64)
    requires { in_range z ≡ true }
    ensures f_after { as_form f.new ≡ constant_form z }
    ensures kept { Kept f.new }
{
    *f = [0i64; FORM_NUMBERS];
    f[0] = z;
}

// f becomes the form of a variable.
pub fn set_variable(f: &mut Form, v: usize)
    requires { v < all_variables }
    ensures f_after { as_form f.new ≡ variable_form v }
    ensures kept { Kept f.new }
{
    *f = [0i64; FORM_NUMBERS];
    f[v + 1] = 1;
}

// f becomes k times g.
pub fn set_multiple(f: &mut Form, k: i64, g: &Form) -> Result<(), OutOfRange>
    requires k_value { in_range k ≡ true }
    requires kept { Kept g.now }
    ensures f_after { built_of result f.new ≡ multiple_of k (as_form g.now) }
    ensures kept_2 { OnOk result (Kept f.new) }
{
    set_constant(f, 0);
    add_scaled(f, k, g)
}

// Whether every coefficient is 0.
pub fn is_constant(f: &Form) -> bool
    requires { Kept f.now }
    ensures { result ≡ all_zero (as_form f.now).coefficients }
{
    f[1..].iter().all(|x| *x == 0)
}

// Whether two forms are equal.
pub fn same(f: &Form, g: &Form) -> bool
    requires kept { Kept f.now }
    requires kept_2 { Kept g.now }
    ensures { result ≡ same_form (as_form f.now) (as_form g.now) }
{
    *f == *g
}

// f becomes f times g, of which one must be constant.
pub fn multiply(f: &mut Form, g: &Form) -> Result<(), NoProduct>
    requires kept { Kept f.old }
    requires kept_2 { Kept g.now }
    ensures f_after { (p : Place) → product_of p result f.new ≡ combined p product (as_form f.old) (as_form g.now) }
    ensures made_kept { OnOk result (Kept f.new) }
{
    if is_constant(f) {
        let k = f[0];
        set_multiple(f, k, g)?;
        return Ok(());
    }
    if is_constant(g) {
        let k = g[0];
        let h = *f;
        set_multiple(f, k, &h)?;
        return Ok(());
    }
    Err(NoProduct::NotLinear)
}

// Whether every number is 0 or more.
pub fn none_negative(f: &Form) -> bool
    requires { Kept f.now }
    ensures { showing_by result ≡ showing_of (built (as_form f.now)) }
{
    f.iter().all(|x| 0 <= *x)
}

// f with its term in the variable v replaced by a bound of the loop n. The loops' low and high forms lie in two slices.
pub fn substitute(
    f: &mut Form,
    v: usize,
    lows: &[Form],
    highs: &[Form],
    n: usize,
) -> Result<(), OutOfRange>
    requires kept { Kept f.old }
    requires v_lt_all_variables { v < all_variables }
    requires rows { Rows lows.now (n + 1) }
    requires rows_2 { Rows highs.now (n + 1) }
    ensures f_after { built_of result f.new ≡ closed v (loop_at n lows.now highs.now) (as_form f.old) (get_or (as_form f.old).coefficients v (pos 0)) }
    ensures kept_2 { OnOk result (Kept f.new) }
{
    let at = v + 1;
    let k = f[at];
    if k == 0 {
        return Ok(());
    }
    f[at] = 0;
    if k < 0 {
        return add_scaled(f, k, &highs[n]);
    }
    add_scaled(f, k, &lows[n])
}

// The number i of f, or 0 in the place of the number `at`.
fn number_but(f: &Form, at: usize, i: usize) -> i64
    requires kept { Kept f.now }
    requires at_lt_form_numbers { at < form_numbers }
    requires i_lt_form_numbers { i < form_numbers }
    ensures { result ≡ get_or (set f.now at (pos 0)) i (pos 0) }
{
    if i == at {
        return 0;
    }
    f[i]
}

// g's number i becomes x plus k times y, where y is mostly 0, if the product and the sum are in range.
fn put_number(g: &mut Form, i: usize, x: i64, k: i64, y: i64) -> Result<(), OutOfRange>
    requires i_lt_form_numbers { i < form_numbers }
    requires x_value { in_range x ≡ true }
    requires k_value { in_range k ≡ true }
    requires y_value { in_range y ≡ true }
    ensures value { is_ok result ≡ (in_range (k *ℤ y) && in_range (x +ℤ k *ℤ y)) }
    ensures g_after { OnOk result (g.new ≡ set g.old i (x +ℤ k *ℤ y)) }
{
    if y == 0 {
        g[i] = x;
        return Ok(());
    }
    put_sum(g, i, x, k, y)
}

// g becomes f, with 0 in the place of the number `at`, plus k times h, if the numbers are in range.
fn sum_but(g: &mut Form, f: &Form, at: usize, k: i64, h: &Form) -> Result<(), OutOfRange>
    requires g_len { length g.old ≡ form_numbers }
    requires kept { Kept f.now }
    requires at_lt_form_numbers { at < form_numbers }
    requires k_value { in_range k ≡ true }
    requires kept_2 { Kept h.now }
    ensures g_after { built_of result g.new ≡ (multiple_of k (as_form h.now) then_build sum_of (as_form (set f.now at (pos 0)))) }
    ensures kept_3 { OnOk result (Kept g.new) }
{
    for i in 0..FORM_NUMBERS {
        let x = number_but(f, at, i);
        put_number(g, i, x, k, h[i])?;
    }
    Ok(())
}

// g becomes f with its term in the variable v, which it has, replaced by a bound of the loop n. f stays, and nothing of it is copied whole:
// wide reads of numbers that were just written one by one are slow.
fn replace_into(
    g: &mut Form,
    f: &Form,
    v: usize,
    lows: &[Form],
    highs: &[Form],
    n: usize,
) -> Result<(), OutOfRange>
    requires g_len { length g.old ≡ form_numbers }
    requires kept { Kept f.now }
    requires v_lt_all_variables { v < all_variables }
    requires fact { get_or f.now (v + 1) (pos 0) ≡ pos 0 → ⊥ }
    requires rows { Rows lows.now (n + 1) }
    requires rows_2 { Rows highs.now (n + 1) }
    ensures g_after { built_of result g.new ≡ closed v (loop_at n lows.now highs.now) (as_form f.now) (get_or (as_form f.now).coefficients v (pos 0)) }
    ensures kept_2 { OnOk result (Kept g.new) }
{
    let at = v + 1;
    let k = f[at];
    if k < 0 {
        return sum_but(g, f, at, k, &highs[n]);
    }
    sum_but(g, f, at, k, &lows[n])
}

// How many of the loops there are up to the highest whose variable has a coefficient other than 0.
fn left(f: &Form, variables: usize, loops: usize) -> usize
    requires kept { Kept f.now }
    requires loops_bound { variables + loops ≤ all_variables }
    ensures f_value { (lows highs : List (List ℤ)) → remaining variables (loops_of loops lows highs) (as_form f.now) ≡ loops_of result lows highs }
    ensures upper_bound { result ≤ loops }
    ensures fact { 0 < result → get_or f.now (variables + result) (pos 0) ≡ pos 0 → ⊥ }
{
    for n in (0..loops).rev() {
        if f[variables + n + 1] != 0 {
            return n + 1;
        }
    }
    0
}

// What is shown of a form all of whose numbers are 0 or more, and of another.
fn verdict_of(natural: bool) -> Result<(), Unshown>
    ensures { shown_of result ≡ showing_by natural }
{
    if natural {
        Ok(())
    } else {
        Err(Unshown::NotShown)
    }
}

// Shows f to be 0 or more by the plain rule, over the outermost loops, so many. What f holds afterwards is of no use.
// It goes from one variable whose coefficient is not 0 to the next below it, so it looks at each coefficient once.
fn scan(f: &mut Form, ranges: &Ranges, loops: usize) -> Settling
    requires kept { Kept f.old }
    requires loops_le_all { loops ≤ ranges.now.loops }
    ensures verdict_value { shown_of result.verdict ≡ plainly ranges.now.variables (loops_in loops ranges.now) (built (as_form f.old)) }
    ensures through_value { result.through ≡ gone_through ranges.now.variables (loops_in loops ranges.now) (built (as_form f.old)) }
{
    let variables = ranges.variables;
    let mut n = loops;
    loop {
        let next = left(f, variables, n);
        if next == 0 {
            return Settling {
                verdict: verdict_of(none_negative(f)),
                through: loops - n,
            };
        }
        n = next - 1;
        let through = loops - n;
        if substitute(f, variables + n, ranges.lows, ranges.highs, n).is_err() {
            return Settling {
                verdict: Err(Unshown::OutOfRange),
                through,
            };
        }
    }
}

// Shows f to be 0 or more by the plain rule.
// Copied, as `show` is.
#[inline(always)]
fn show_plainly(f: &Form, ranges: &Ranges) -> Settling
    requires { Kept f.now }
    ensures verdict_value { shown_of result.verdict ≡ plainly ranges.now.variables (all_loops ranges.now) (built (as_form f.now)) }
    ensures through_value { result.through ≡ gone_through ranges.now.variables (all_loops ranges.now) (built (as_form f.now)) }
{
    let variables = ranges.variables;
    let loops = ranges.loops;
    let next = left(f, variables, loops);
    if next == 0 {
        return Settling {
            verdict: verdict_of(none_negative(f)),
            through: 0,
        };
    }
    let n = next - 1;
    let passed = loops - n;
    let mut g = [0i64; FORM_NUMBERS];
    if replace_into(&mut g, f, variables + n, ranges.lows, ranges.highs, n).is_err() {
        return Settling {
            verdict: Err(Unshown::OutOfRange),
            through: passed,
        };
    }
    let s = scan(&mut g, ranges, n);
    Settling {
        verdict: s.verdict,
        through: passed + s.through,
    }
}

// f becomes f − (high − low) of the loop n, high − low being built first, if the numbers are in range.
fn less_range(f: &mut Form, lows: &[Form], highs: &[Form], n: usize) -> Result<(), OutOfRange>
    requires kept { Kept f.old }
    requires rows { Rows lows.now (n + 1) }
    requires rows_2 { Rows highs.now (n + 1) }
    ensures f_after { built_of result f.new ≡ less_range (loop_at n lows.now highs.now) (as_form f.old) }
    ensures kept_2 { OnOk result (Kept f.new) }
{
    let mut range = highs[n];
    subtract(&mut range, &lows[n])?;
    subtract(f, &range)
}

// Whether the trial for the loop n shows f to be 0 or more.
fn try_loop(f: &Form, ranges: &Ranges, n: usize) -> bool
    requires kept { Kept f.now }
    requires n_lt_loops { n < ranges.now.loops }
    ensures { result ≡ trial ranges.now.variables (all_loops ranges.now) (loop_at n ranges.now.lows.now ranges.now.highs.now) (built (as_form f.now)) }
{
    let mut g = *f;
    if less_range(&mut g, ranges.lows, ranges.highs, n).is_err() {
        return false;
    }
    show_plainly(&g, ranges).verdict.is_ok()
}

// The trials of f for the outermost loops, so many, from the innermost of these out, up to the first that shows it.
// It calls itself: a loop would be copied into each place that shows a form, and make those slower that need no trial.
fn try_loops(f: &Form, ranges: &Ranges, inner: usize) -> Trials
    requires kept { Kept f.now }
    requires inner_le_loops { inner ≤ ranges.now.loops }
    ensures shown_value { result.shown ≡ by_trial ranges.now.variables (all_loops ranges.now) (loops_in inner ranges.now) (built (as_form f.now)) }
    ensures made_value { result.made ≡ trials_for ranges.now.variables (all_loops ranges.now) (loops_in inner ranges.now) (built (as_form f.now)) }
{
    if inner == 0 {
        return Trials {
            shown: false,
            made: 0,
        };
    }
    if try_loop(f, ranges, inner - 1) {
        return Trials {
            shown: true,
            made: 1,
        };
    }
    let t = try_loops(f, ranges, inner - 1);
    let made = t.made + 1;
    Trials {
        shown: t.shown,
        made,
    }
}

// Shows f to be 0 or more: by the plain rule, and only where that does not show it by a trial.
// Copied into each place, so that no loop is looked for where there are none.
#[inline(always)]
pub fn show(f: &Form, ranges: &Ranges) -> Shown
    requires { Kept f.now }
    ensures verdict_value { shown_of result.verdict ≡ showing ranges.now.variables (all_loops ranges.now) (built (as_form f.now)) }
    ensures through_value { result.through ≡ gone_through ranges.now.variables (all_loops ranges.now) (built (as_form f.now)) }
    ensures trials_value { result.trials ≡ trials_made ranges.now.variables (all_loops ranges.now) (built (as_form f.now)) }
{
    let s = show_plainly(f, ranges);
    let through = s.through;
    if s.verdict != Err(Unshown::NotShown) {
        return Shown {
            verdict: s.verdict,
            through,
            trials: 0,
        };
    }
    let t = try_loops(f, ranges, ranges.loops);
    Shown {
        verdict: verdict_of(t.shown),
        through,
        trials: t.made,
    }
}

// f becomes the form that a size in a table stands for.
pub fn load(f: &mut Form, row: &Size)
    requires { Short row.now }
    ensures f_after { f.new ≡ widened row.now }
    ensures kept { Kept f.new }
{
    *f = [0i64; FORM_NUMBERS];
    for i in 0..SIZE_NUMBERS {
        f[i] = i64::from(row[i]);
    }
}

// The row of a table for f, whose coefficients but for those of a family's variables are 0.
pub fn store(row: &mut Size, f: &Form)
    requires kept { Kept f.now }
    requires f_value { drop size_numbers f.now ≡ replicate most_loops (pos 0) }
    ensures row_after { widened row.new ≡ f.now }
    ensures short { Short row.new }
{
    *row = [0i32; SIZE_NUMBERS];
    for i in 0..SIZE_NUMBERS {
        row[i] = f[i] as i32;
    }
}

// f becomes a parameter's size with a call's forms put in for the family's m variables, all together.
pub fn put_in(f: &mut Form, size: &Size, forms: &[Form], m: usize) -> Result<(), OutOfRange>
    requires short { Short size.now }
    requires m_le_most_variables { m ≤ most_variables }
    requires rows { Rows forms.now m }
    ensures f_after { built_of result f.new ≡ put_in (as_form (widened size.now)) (forms_of m forms.now) }
    ensures kept { OnOk result (Kept f.new) }
{
    let z = i64::from(size[0]);
    set_constant(f, z);
    for j in 0..m {
        let k = i64::from(size[j + 1]);
        add_scaled(f, k, &forms[j])?;
    }
    Ok(())
}
