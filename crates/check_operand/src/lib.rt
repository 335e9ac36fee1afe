// The check of operands: what is due, and what is shown of it.
#![tactic(auto)]

ghost use Rattle.std.specs.Prelude.{◌≡◌, true, OnOk, List, ℕ, ◌+◌, ◌≤◌, length, replicate, ℤ, pos};
ghost use Rattle.std.proofs.Math.Seq.{slice};
ghost use Rattle.language.specs.Tree.{Place, Operand, bad_operand};
ghost use Rattle.language.specs.Read.{due, read_operand, read_whole, read_element, read_slice, read_passed};
ghost use Rattle.language.specs.Form.{Form, Loop, built, difference_of, ◌then_build◌, shown, showing};
ghost use Rattle.language.specs.Check.{Formal, Kind, Signature, size_scope, element_size, room_after, by_showing, must_show, wire, whole_fits, check_within, slice_size, check_slice, slice_fits, check_operand};
ghost use Rattle.language.specs.Limits.{most_variables, all_variables};
ghost use Rattle.fields.specs.Header.{fields_at};
ghost use Rattle.forms.specs.Flat.{form_numbers, Kept, Short, widened, as_form, built_of, shown_of};
ghost use Rattle.forms.specs.Ranges.{all_loops};
ghost use Rattle.check_operand.specs.Tables.{Known, kind_in, kind_of_row, size_of_row, tabulated, scope_with};
ghost use Rattle.check_operand.specs.Scopes.{scope_at, Names};
ghost use Rattle.check_operand.specs.Operands.{checked_size, shown_form, wanted_of, SizeRight, Answerable, one_wire, two_operands, Leaves, Comparable, same_by};
ghost use Rattle.check_index.specs.Answers.{checked_part, EndsAt, Passes};

use fields::NoHeader;
use forms::{FORM_NUMBERS, Form, OutOfRange, Ranges, Size, Unshown};
use limits::DEEPEST;
use refusals::{Reason, Refusal};

mod scope;

pub use scope::{Scope, Visible};

// A number in the table of operands stands for a kind and for the row of a size: it is so many times that row, and the number of the kind.
pub const KINDS: u16 = 4;

// What an operand is due to be: a wire, a bit, a register of at least a size, which lies beside, if it was built, or a family for the
// family parameter whose number this is.
#[derive(Clone, Copy, Debug, PartialEq, Eq)]
pub enum Wanted {
    Wire,
    Bit,
    Register(Result<(), OutOfRange>),
    Family(usize),
}

// The kind that a number in the table of operands stands for.
pub fn kind_by(number: u16) -> kinds::Kind
    ensures { result ≡ kind_of_row number }
{
    kinds::Kind::from(number % KINDS)
}

// The row of the size that a number in the table of operands stands for.
pub fn size_by(number: u16) -> usize
    ensures { result ≡ size_of_row number }
{
    usize::from(number / KINDS)
}

// What a verdict answers for the field from `at` to `next`.
fn answered(verdict: Result<(), Unshown>, at: usize, next: usize) -> Result<usize, Refusal>
    ensures result_value { checked_part result ≡ by_showing at (shown_of verdict) }
    ensures ends_at { EndsAt next result }
{
    match verdict {
        Ok(()) => Ok(next),
        Err(Unshown::NotShown) => Err(Refusal(Reason::NotShown, at)),
        Err(Unshown::OutOfRange) => Err(Refusal(Reason::FormOutOfRange, at)),
    }
}

// Shows f to be 0 or more.
// Copied, as `forms::show` is.
#[inline(always)]
fn show(f: &Form, ranges: &Ranges) -> Result<(), Unshown>
    requires kept { Kept f.now }
    ensures { shown_of result ≡ showing ranges.now.variables (all_loops ranges.now) (built (as_form f.now)) }
{
    forms::show(f, ranges).verdict
}

// Shows f to be 0 or more, for the field from `at` to `next`. Copied, as `forms::show` is.
#[inline(always)]
pub fn must_show(f: &Form, at: usize, next: usize, ranges: &Ranges) -> Result<usize, Refusal>
    requires kept { Kept f.now }
    ensures result_value { (fs : List Signature) (ks : List Kind) → checked_part result ≡ must_show at (scope_with fs ks ranges.now.variables (all_loops ranges.now)) (built (as_form f.now)) }
    ensures ends_at { EndsAt next result }
{
    answered(show(f, ranges), at, next)
}

// Shows that a register of a size goes on after the index f: size − 1 − f is 0 or more.
fn room_after(f: &Form, size: &Size, ranges: &Ranges) -> Result<(), Unshown>
    requires kept { Kept f.now }
    requires short { Short size.now }
    ensures { shown_of result ≡ showing ranges.now.variables (all_loops ranges.now) (room_after (as_form (widened size.now)) (as_form f.now)) }
{
    let mut room = [0i64; FORM_NUMBERS];
    forms::load(&mut room, size);
    forms::add_constant(&mut room, -1)?;
    forms::subtract(&mut room, f)?;
    show(&room, ranges)
}

// Shows the index f to be within a size.
fn within(f: &Form, size: &Size, ranges: &Ranges) -> Result<(), Unshown>
    requires kept { Kept f.now }
    requires short { Short size.now }
    ensures { (p : Place) (fs : List Signature) (ks : List Kind) → by_showing p (shown_of result) ≡ check_within p (scope_with fs ks ranges.now.variables (all_loops ranges.now)) (as_form (widened size.now)) (as_form f.now) }
{
    show(f, ranges)?;
    room_after(f, size, ranges)
}

// The size of the slice from `first` to `last`, which becomes last − first + 1.
fn slice_size(first: &Form, last: &mut Form) -> Result<(), OutOfRange>
    requires kept { Kept first.now }
    requires kept_2 { Kept last.old }
    ensures last_after { built_of result last.new ≡ slice_size (as_form first.now) (as_form last.old) }
    ensures kept_3 { OnOk result (Kept last.new) }
{
    forms::subtract(last, first)?;
    forms::add_constant(last, 1)
}

// Shows the slice from `first` to `last` to be within a size; `last` becomes the slice's own size.
fn slice_within(first: &Form, last: &mut Form, size: &Size, ranges: &Ranges) -> Result<(), Unshown>
    requires kept { Kept first.now }
    requires kept_2 { Kept last.old }
    requires short { Short size.now }
    ensures last_after { (p : Place) (fs : List Signature) (ks : List Kind) → shown_form p result last.new ≡ check_slice p (scope_with fs ks ranges.now.variables (all_loops ranges.now)) (as_form (widened size.now)) (as_form first.now) (as_form last.old) }
    ensures kept_3 { shown_of result ≡ shown → Kept last.new }
{
    show(first, ranges)?;
    room_after(last, size, ranges)?;
    slice_size(first, last)?;
    show(last, ranges)
}

// Shows a register's own size, which becomes what it is more, to be at least the size due.
// Copied, as `forms::show` is.
#[inline(always)]
fn large_enough(
    known: Result<(), OutOfRange>,
    size: &Form,
    own: &mut Form,
    ranges: &Ranges,
) -> Result<(), Unshown>
    requires kept { OnOk known (Kept size.now) }
    requires kept_2 { Kept own.old }
    ensures { shown_of result ≡ showing ranges.now.variables (all_loops ranges.now) (built_of known size.now then_build difference_of (as_form own.old)) }
{
    known?;
    forms::subtract(own, size)?;
    show(own, ranges)
}

// Whether an operand of a kind and an own size, taken whole, is what is due.
fn whole_fits(
    wanted: Wanted,
    size: &Form,
    kind: kinds::Kind,
    own: &Size,
    at: usize,
    next: usize,
    ranges: &Ranges,
) -> Result<usize, Refusal>
    requires size_right { SizeRight wanted size.now }
    requires short { Short own.now }
    ensures result_value { (fs : List Signature) (ks : List Kind) (k : Known) (g : Formal) → checked_part result ≡ whole_fits at (scope_with fs ks ranges.now.variables (all_loops ranges.now)) (wanted_of k wanted size.now) (kind_in kind (as_form (widened own.now)) g) }
    ensures ends_at { EndsAt next result }
{
    match (wanted, kind) {
        (Wanted::Wire, kinds::Kind::Qubit) => Ok(next),
        (Wanted::Register(known), kinds::Kind::Quantum) => {
            let mut room = [0i64; FORM_NUMBERS];
            forms::load(&mut room, own);
            let v = large_enough(known, size, &mut room, ranges);
            answered(v, at, next)
        }
        _ => Err(Refusal(Reason::WrongKind, at)),
    }
}

// Whether an element of an operand of a kind is what is due, for the field from `at` to `next`.
fn element_kind(wanted: Wanted, kind: kinds::Kind, at: usize, next: usize) -> Result<usize, Refusal>
    ensures f_value { (f : Form) (l : List ℤ) (k : Known) (g : Formal) → checked_size result f ≡ element_size at (wanted_of k wanted l) (kind_in kind f g) }
    ensures ends_at { EndsAt next result }
{
    let wrong = Refusal(Reason::WrongKind, at);
    match (wanted, kind) {
        (Wanted::Wire, kinds::Kind::Quantum) | (Wanted::Bit, kinds::Kind::Classical) => Ok(next),
        _ => Err(wrong),
    }
}

// The row of the operand that the field at `at`, which ends at `next`, names.
fn row_at(program: &[u8], at: usize, next: usize, scope: &Scope) -> Result<usize, Refusal>
    requires at_bound { (at + 3 ≤ next) × (next ≤ length program.now) }
    ensures { Names scope.now program.now at next result }
{
    let from = at + 3;
    if next <= from {
        return Err(Refusal(Reason::BadContent, at));
    }
    let n = usize::from(program[from]);
    if scope.visible.count <= n {
        return Err(Refusal(Reason::NotInScope, at));
    }
    Ok(scope.visible.first + n)
}

// The whole operand at `at`, whose field ends at `next`.
fn whole(
    program: &[u8],
    at: usize,
    next: usize,
    wanted: Wanted,
    size: &Form,
    scope: &Scope,
) -> Result<usize, Refusal>
    requires at_bound { (at + 3 ≤ next) × (next ≤ length program.now) }
    requires size_right { SizeRight wanted size.now }
    ensures result_value { (k : Known) → checked_part result ≡ check_operand (scope_at k scope.now) (wanted_of k wanted size.now) (read_whole at (slice (at + 3) next program.now)) }
    ensures ends_at { EndsAt next result }
{
    let row = row_at(program, at, next, scope)?;
    if at + 4 < next {
        return Err(Refusal(Reason::BadContent, at));
    }
    let number = scope.kinds[row];
    let kind = kind_by(number);
    let own = size_by(number);
    whole_fits(
        wanted,
        size,
        kind,
        &scope.sizes[own],
        at,
        next,
        &scope.ranges(),
    )
}

// The element at `at`, whose field ends at `next`; the form of its index is left in `form`.
fn element(
    program: &[u8],
    at: usize,
    next: usize,
    wanted: Wanted,
    form: &mut Form,
    scope: &Scope,
) -> Result<usize, Refusal>
    requires at_bound { (at + 3 ≤ next) × (next ≤ length program.now) }
    ensures result_value { (k : Known) (l : List ℤ) → checked_part result ≡ check_operand (scope_at k scope.now) (wanted_of k wanted l) (read_element at (slice (at + 3) next program.now)) }
    ensures ends_at { EndsAt next result }
    ensures leaves { (k : Known) → Leaves (scope_at k scope.now) (read_element at (slice (at + 3) next program.now)) result form.new }
{
    let row = row_at(program, at, next, scope)?;
    let variables = scope.visible.variables + scope.visible.loops;
    let end = check_index::index(program, at + 4, next, at, DEEPEST, variables, form)?;
    if end < next {
        return Err(Refusal(Reason::BadContent, at));
    }
    let number = scope.kinds[row];
    let kind = kind_by(number);
    element_kind(wanted, kind, at, next)?;
    let own = size_by(number);
    let v = within(form, &scope.sizes[own], &scope.ranges());
    answered(v, at, next)
}

// Whether the slice from `first` to `last` of an operand of a kind and an own size is what is due.
fn slice_fits(
    wanted: Wanted,
    size: &Form,
    kind: kinds::Kind,
    own: &Size,
    first: &Form,
    last: &mut Form,
    at: usize,
    next: usize,
    ranges: &Ranges,
) -> Result<usize, Refusal>
    requires size_right { SizeRight wanted size.now }
    requires short { Short own.now }
    requires kept { Kept first.now }
    requires kept_2 { Kept last.old }
    ensures result_value { (fs : List Signature) (ks : List Kind) (k : Known) (g : Formal) → checked_part result ≡ slice_fits at (scope_with fs ks ranges.now.variables (all_loops ranges.now)) (wanted_of k wanted size.now) (kind_in kind (as_form (widened own.now)) g) (as_form first.now) (as_form last.old) }
    ensures ends_at { EndsAt next result }
{
    let (Wanted::Register(known), kinds::Kind::Quantum) = (wanted, kind) else {
        return Err(Refusal(Reason::WrongKind, at));
    };
    let v = slice_within(first, last, own, ranges);
    if v.is_err() {
        return answered(v, at, next);
    }
    let w = large_enough(known, size, last, ranges);
    answered(w, at, next)
}

// The slice at `at`, whose field ends at `next`.
fn part(
    program: &[u8],
    at: usize,
    next: usize,
    wanted: Wanted,
    size: &Form,
    scope: &Scope,
) -> Result<usize, Refusal>
    requires at_bound { (at + 3 ≤ next) × (next ≤ length program.now) }
    requires size_right { SizeRight wanted size.now }
    ensures result_value { (k : Known) → checked_part result ≡ check_operand (scope_at k scope.now) (wanted_of k wanted size.now) (read_slice at (slice (at + 3) next program.now)) }
    ensures ends_at { EndsAt next result }
{
    let row = row_at(program, at, next, scope)?;
    let variables = scope.visible.variables + scope.visible.loops;
    let mut first = [0i64; FORM_NUMBERS];
    let mut last = [0i64; FORM_NUMBERS];
    let end = check_index::two_indexes(
        program,
        at + 4,
        next,
        at,
        variables,
        &mut first,
        &mut last,
    )?;
    if end < next {
        return Err(Refusal(Reason::BadContent, at));
    }
    let number = scope.kinds[row];
    let kind = kind_by(number);
    let own = size_by(number);
    slice_fits(
        wanted,
        size,
        kind,
        &scope.sizes[own],
        &first,
        &mut last,
        at,
        next,
        &scope.ranges(),
    )
}

// The passed family at `at`, whose field ends at `next`, where no family is due.
fn misplaced(
    program: &[u8],
    at: usize,
    next: usize,
    wanted: Wanted,
    scope: &Scope,
) -> Result<usize, Refusal>
    requires at_bound { (at + 3 ≤ next) × (next ≤ length program.now) }
    requires answerable { Answerable wanted (read_passed at (slice (at + 3) next program.now)) }
    ensures result_value { (k : Known) (l : List ℤ) (ks : List Kind) (m : ℕ) (ls : List Loop) → checked_part result ≡ check_operand (scope_with (tabulated k.declared scope.now.visible.families 0) ks m ls) (wanted_of k wanted l) (read_passed at (slice (at + 3) next program.now)) }
    ensures ends_at { EndsAt next result }
{
    let from = at + 3;
    if next - from < 2 {
        return Err(Refusal(Reason::BadContent, at));
    }
    let n = fields::two_bytes(program, from);
    if scope.visible.families <= n {
        return Err(Refusal(Reason::NotInScope, at));
    }
    if next - from != 2 {
        return Err(Refusal(Reason::BadContent, at));
    }
    Err(Refusal(Reason::WrongKind, at))
}

// The operand that is due at `at` in the field at `parent` whose content ends at `to`; the form of an element's index is left in
// `form`. A family that is passed where one is due is not its matter.
pub fn operand(
    program: &[u8],
    at: usize,
    to: usize,
    parent: usize,
    wanted: Wanted,
    size: &Form,
    form: &mut Form,
    scope: &Scope,
) -> Result<usize, Refusal>
    requires to_in_bounds { to ≤ length program.now }
    requires size_right { SizeRight wanted size.now }
    requires answerable { Answerable wanted (due read_operand (bad_operand 4 parent) (fields_at program.now at to)) }
    ensures result_value { (k : Known) → checked_part result ≡ check_operand (scope_at k scope.now) (wanted_of k wanted size.now) (due read_operand (bad_operand 4 parent) (fields_at program.now at to)) }
    ensures passes { Passes program.now at to result }
    ensures leaves { (k : Known) → Leaves (scope_at k scope.now) (due read_operand (bad_operand 4 parent) (fields_at program.now at to)) result form.new }
{
    match fields::header_at(program, at, to) {
        Err(NoHeader::End) => Err(Refusal(Reason::BadContent, parent)),
        Err(NoHeader::Cut) => Err(Refusal(Reason::BadHeader, at)),
        Ok(header) => match header.tag {
            fields::WHOLE => whole(program, at, header.next, wanted, size, scope),
            fields::ELEMENT => element(program, at, header.next, wanted, form, scope),
            fields::SLICE => part(program, at, header.next, wanted, size, scope),
            fields::PASSED => misplaced(program, at, header.next, wanted, scope),
            _ => Err(Refusal(Reason::BadTag, at)),
        },
    }
}

// Shows that a size is at least another, over m index variables and without loops, for the field from `at` to `next`.
pub fn at_least(
    size: &Size,
    other: &Size,
    m: usize,
    at: usize,
    next: usize,
) -> Result<usize, Refusal>
    requires short { Short size.now }
    requires short_2 { Short other.now }
    requires m_le_most_variables { m ≤ most_variables }
    ensures result_value { checked_part result ≡ must_show at (size_scope m) (difference_of (as_form (widened size.now)) (as_form (widened other.now))) }
    ensures ends_at { EndsAt next result }
{
    let mut room = [0i64; FORM_NUMBERS];
    forms::load(&mut room, size);
    let mut less = [0i64; FORM_NUMBERS];
    forms::load(&mut less, other);
    let ranges = Ranges {
        variables: m,
        loops: 0,
        lows: &[],
        highs: &[],
    };
    answered(large_enough(Ok(()), &less, &mut room, &ranges), at, next)
}

// One wire, and no more, from `from` to `next` in the field at `at`.
pub fn one_wire(
    program: &[u8],
    from: usize,
    next: usize,
    at: usize,
    scope: &Scope,
) -> Result<usize, Refusal>
    requires next_in_bounds { next ≤ length program.now }
    ensures result_value { (k : Known) → checked_part result ≡ one_wire (scope_at k scope.now) at (fields_at program.now from next) }
    ensures ends_at { EndsAt next result }
{
    let none = [0i64; FORM_NUMBERS];
    let mut form = [0i64; FORM_NUMBERS];
    let end = operand(
        program,
        from,
        next,
        at,
        Wanted::Wire,
        &none,
        &mut form,
        scope,
    )?;
    if end < next {
        return Err(Refusal(Reason::BadContent, at));
    }
    Ok(next)
}

// Whether the wires at two places, whose fields are right, are one: both are whole, or elements of equal forms, and have the same
// number.
fn same_wire(program: &[u8], first: usize, second: usize, f: &Form, g: &Form) -> bool
    requires comparable { Comparable program.now first f.now }
    requires comparable_2 { Comparable program.now second g.now }
    ensures { result ≡ same_by program.now first second f.now g.now }
{
    let tag = program[first];
    if tag != program[second] {
        return false;
    }
    let number = program[first + 3];
    if number != program[second + 3] {
        return false;
    }
    if tag == fields::WHOLE {
        return true;
    }
    forms::same(f, g)
}

// A wire, and then a wire or a bit, and no more, from `from` to `next` in the field at `at`; one wire twice is refused after all
// else.
pub fn two_operands(
    program: &[u8],
    from: usize,
    next: usize,
    at: usize,
    second: Wanted,
    scope: &Scope,
) -> Result<usize, Refusal>
    requires next_in_bounds { next ≤ length program.now }
    requires answerable { ((l : List ℤ) → SizeRight second l) × ((o : Operand) → Answerable second o) }
    ensures result_value { (k : Known) → checked_part result ≡ two_operands (scope_at k scope.now) (wanted_of k second (replicate form_numbers (pos 0))) at (fields_at program.now from next) }
    ensures ends_at { EndsAt next result }
{
    let none = [0i64; FORM_NUMBERS];
    let mut f = [0i64; FORM_NUMBERS];
    let mut g = [0i64; FORM_NUMBERS];
    let mid = operand(program, from, next, at, Wanted::Wire, &none, &mut f, scope)?;
    let end = operand(program, mid, next, at, second, &none, &mut g, scope)?;
    if end < next {
        return Err(Refusal(Reason::BadContent, at));
    }
    let Wanted::Wire = second else {
        return Ok(next);
    };
    if same_wire(program, from, mid, &f, &g) {
        return Err(Refusal(Reason::SameWire, at));
    }
    Ok(next)
}

// Two wires, and no more, from `from` to `next` in the field at `at`.
pub fn two_wires(
    program: &[u8],
    from: usize,
    next: usize,
    at: usize,
    scope: &Scope,
) -> Result<usize, Refusal>
    requires next_in_bounds { next ≤ length program.now }
    ensures { (k : Known) → checked_part result ≡ two_operands (scope_at k scope.now) wire at (fields_at program.now from next) }
{
    two_operands(program, from, next, at, Wanted::Wire, scope)
}
