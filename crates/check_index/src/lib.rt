// The check of an index field: the form that it means.
#![tactic(auto)]

ghost use Rattle.std.specs.Prelude.{◌≡◌, List, ℕ, ◌+◌, ◌≤◌, length};
ghost use Rattle.std.proofs.Math.Seq.{slice};
ghost use Rattle.language.specs.Tree.{bad_index};
ghost use Rattle.language.specs.Read.{field, due, deep_index, read_index, read_literal, read_variable};
ghost use Rattle.language.specs.Check.{form_of, combined};
ghost use Rattle.language.specs.Limits.{all_variables};
ghost use Rattle.fields.specs.Header.{fields_at};
ghost use Rattle.forms.specs.Flat.{Kept, as_form};
ghost use Rattle.refusals.specs.Reasons.{number_of};
ghost use Rattle.check_index.specs.Indexes.{IndexSays, tree_operation, scope_of};
ghost use Rattle.check_index.specs.Answers.{checked_form, FormEndsAt, FormPasses};
ghost use Rattle.check_index.specs.Bounds.{checked_bounds, bounds_due, BoundsPass};

use fields::NoHeader;
use forms::{FORM_NUMBERS, Form, NoProduct, OutOfRange};
use limits::DEEPEST;
use refusals::{Reason, Refusal};

// The operations on index forms.
#[derive(Clone, Copy, Debug, PartialEq, Eq)]
pub enum Operation {
    Sum,
    Difference,
    Product,
}

// What an index field's tag says.
#[derive(Clone, Copy, Debug, PartialEq, Eq)]
pub enum IndexTag {
    Literal,
    Variable,
    Both(Operation),
    Other,
}

fn index_tag(tag: u8) -> IndexTag
    ensures { IndexSays tag result }
{
    match tag {
        fields::LITERAL => IndexTag::Literal,
        fields::VARIABLE => IndexTag::Variable,
        fields::SUM => IndexTag::Both(Operation::Sum),
        fields::DIFFERENCE => IndexTag::Both(Operation::Difference),
        fields::PRODUCT => IndexTag::Both(Operation::Product),
        _ => IndexTag::Other,
    }
}

// The refusal of a field of a tag where an index would be past the deepest level.
fn too_deep(tag: u8) -> Reason
    ensures { (p : ℕ) (content : List ℕ) → bad_index (number_of result) p ≡ deep_index (field p tag content) }
{
    if tag < fields::LITERAL {
        return Reason::BadTag;
    }
    if fields::PRODUCT < tag {
        return Reason::BadTag;
    }
    Reason::TooDeep
}

// The literal at `at`, whose field ends at `next`.
fn literal(program: &[u8], at: usize, next: usize, f: &mut Form) -> Result<usize, Refusal>
    requires { (at + 3 ≤ next) × (next ≤ length program.now) }
    ensures by_index { (n : ℕ) → checked_form result f.new ≡ form_of (scope_of n) (read_literal at (slice (at + 3) next program.now)) }
    ensures form_ends_at { FormEndsAt next result f.new }
{
    let from = at + 3;
    if next - from != 2 {
        return Err(Refusal(Reason::BadContent, at));
    }
    let n = fields::two_bytes(program, from);
    forms::set_constant(f, n as i64);
    Ok(next)
}

// The variable at `at`, of so many in scope.
fn variable(
    program: &[u8],
    at: usize,
    next: usize,
    variables: usize,
    f: &mut Form,
) -> Result<usize, Refusal>
    requires at_bound { (at + 3 ≤ next) × (next ≤ length program.now) }
    requires variables_le_all_variables { variables ≤ all_variables }
    ensures f_after { checked_form result f.new ≡ form_of (scope_of variables) (read_variable at (slice (at + 3) next program.now)) }
    ensures form_ends_at { FormEndsAt next result f.new }
{
    let from = at + 3;
    if next <= from {
        return Err(Refusal(Reason::BadContent, at));
    }
    let v = usize::from(program[from]);
    if variables <= v {
        return Err(Refusal(Reason::NotInScope, at));
    }
    if next - from != 1 {
        return Err(Refusal(Reason::BadContent, at));
    }
    forms::set_variable(f, v);
    Ok(next)
}

// f becomes f times g, of which one must be constant.
fn product(at: usize, next: usize, f: &mut Form, g: &Form) -> Result<usize, Refusal>
    requires kept { Kept f.old }
    requires kept_2 { Kept g.now }
    ensures f_after { checked_form result f.new ≡ combined at (tree_operation Operation.Product) (as_form f.old) (as_form g.now) }
    ensures form_ends_at { FormEndsAt next result f.new }
{
    match forms::multiply(f, g) {
        Ok(()) => Ok(next),
        Err(NoProduct::OutOfRange) => Err(Refusal(Reason::FormOutOfRange, at)),
        Err(NoProduct::NotLinear) => Err(Refusal(Reason::ProductOfVariables, at)),
    }
}

// f becomes what the operation at `at`, whose field ends at `next`, makes of f and g.
fn combine(op: Operation, at: usize, next: usize, f: &mut Form, g: &Form) -> Result<usize, Refusal>
    requires kept { Kept f.old }
    requires kept_2 { Kept g.now }
    ensures f_after { checked_form result f.new ≡ combined at (tree_operation op) (as_form f.old) (as_form g.now) }
    ensures form_ends_at { FormEndsAt next result f.new }
{
    match op {
        Operation::Sum => match forms::add(f, g) {
            Ok(()) => Ok(next),
            Err(OutOfRange) => Err(Refusal(Reason::FormOutOfRange, at)),
        },
        Operation::Difference => match forms::subtract(f, g) {
            Ok(()) => Ok(next),
            Err(OutOfRange) => Err(Refusal(Reason::FormOutOfRange, at)),
        },
        Operation::Product => product(at, next, f, g),
    }
}

// The index that is due at `at` in the field at `parent` whose content ends at `to`; its form goes to f.
pub fn index(
    program: &[u8],
    at: usize,
    to: usize,
    parent: usize,
    levels: usize,
    variables: usize,
    f: &mut Form,
) -> Result<usize, Refusal>
    requires to_in_bounds { to ≤ length program.now }
    requires variables_le_all_variables { variables ≤ all_variables }
    ensures f_after { checked_form result f.new ≡ form_of (scope_of variables) (due (read_index levels) (bad_index 4 parent) (fields_at program.now at to)) }
    ensures form_passes { FormPasses program.now at to result f.new }
{
    match fields::header_at(program, at, to) {
        Err(NoHeader::End) => Err(Refusal(Reason::BadContent, parent)),
        Err(NoHeader::Cut) => Err(Refusal(Reason::BadHeader, at)),
        Ok(header) => {
            let next = header.next;
            let kind = index_tag(header.tag);
            if levels == 0 {
                return Err(Refusal(too_deep(header.tag), at));
            }
            let below = levels - 1;
            let from = at + 3;
            match kind {
                IndexTag::Other => Err(Refusal(Reason::BadTag, at)),
                IndexTag::Literal => literal(program, at, next, f),
                IndexTag::Variable => variable(program, at, next, variables, f),
                IndexTag::Both(op) => {
                    let mid = index(program, from, next, at, below, variables, f)?;
                    let mut g = [0i64; FORM_NUMBERS];
                    let end = index(program, mid, next, at, below, variables, &mut g)?;
                    if end < next {
                        return Err(Refusal(Reason::BadContent, at));
                    }
                    combine(op, at, next, f, &g)
                }
            }
        }
    }
}

// The two indexes that are due one after the other from `from` on in the field at `parent` whose content ends at `to`; their
// forms go to `low` and `high`.
pub fn two_indexes(
    program: &[u8],
    from: usize,
    to: usize,
    parent: usize,
    variables: usize,
    low: &mut Form,
    high: &mut Form,
) -> Result<usize, Refusal>
    requires to_in_bounds { to ≤ length program.now }
    requires variables_le_all_variables { variables ≤ all_variables }
    ensures high_after { checked_bounds result low.new high.new ≡ bounds_due (scope_of variables) parent (fields_at program.now from to) }
    ensures bounds_pass { BoundsPass program.now from to result low.new high.new }
{
    let mid = index(program, from, to, parent, DEEPEST, variables, low)?;
    index(program, mid, to, parent, DEEPEST, variables, high)
}
