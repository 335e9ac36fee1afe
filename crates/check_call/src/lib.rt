// The check of a call: its indexes' forms, its operands against the family's parameters, and families that are passed.
#![tactic(auto)]

ghost use Rattle.std.specs.Prelude.{◌≡◌, List, [], map, ◌+◌, ◌≤◌, ◌<◌, length, get_or, ℤ};
ghost use Rattle.std.proofs.Math.Seq.{slice};
ghost use Rattle.language.specs.Tree.{bad_operand, call, call_parameter};
ghost use Rattle.language.specs.Form.{Form, Loop};
ghost use Rattle.language.specs.Read.{due, read_operand, read_passed, read_argument, call_of};
ghost use Rattle.language.specs.Check.{Formal, Kind as SizedKind, Signature, fitting, taken, plain_size, same_kind, same_kinds, size_fits, sizes_fit, family_fits, call_forms, call_operands, call_fits, check_statement};
ghost use Rattle.language.specs.Limits.{most_families, most_variables};
ghost use Rattle.fields.specs.Header.{fields_at};
ghost use Rattle.fields.specs.CallNumber.{call_reader};
ghost use Rattle.forms.specs.Flat.{Short, widened, as_form};
ghost use Rattle.forms.specs.Rows.{Rows, ShortRows, loops_of, forms_of};
ghost use Rattle.check_operand.specs.Tables.{Formals, Known, kind_in, size_of_row, kind_by, kinds_at, scope_with};
ghost use Rattle.check_index.specs.Answers.{checked_part, EndsAt, Passes, PassesCount};
ghost use Rattle.check_operand.specs.Operands.{wanted_of, SizeRight};
ghost use Rattle.check_call.specs.Calls.{plain_in, plain_by, plains_at, signature_in, call_operand, checked_forms};
ghost use Rattle.check_call.specs.Scopes.{scope_full, formals_of, signatures_of};

use check_operand::{Scope, Wanted};
use forms::{FORM_NUMBERS, Form, Size};
use kinds::Kind;
use limits::{DEEPEST, MOST_FAMILIES, MOST_VARIABLES};
use refusals::{Reason, Refusal};

mod scope;

pub use scope::{FamilyRow, FullScope};

// The forms of the m indexes of a call at `parent`, from `at` on.
fn call_forms(
    program: &[u8],
    at: usize,
    to: usize,
    parent: usize,
    m: usize,
    scope: &Scope,
    forms: &mut [Form; MOST_VARIABLES],
) -> Result<usize, Refusal>
    requires to_in_bounds { to ≤ length program.now }
    requires m_le_most_variables { m ≤ most_variables }
    requires rows { Rows forms.old most_variables }
    ensures forms_after { (fs : List Signature) (ks : List SizedKind) → checked_forms result m forms.new ≡ call_forms (scope_with fs ks scope.now.visible.variables (loops_of scope.now.visible.loops scope.now.lows.now scope.now.highs.now)) parent m (map read_argument (fields_at program.now at to)) }
    ensures passes_count { PassesCount program.now at to m result }
    ensures rows_2 { Rows forms.new most_variables }
{
    let variables = scope.visible.variables + scope.visible.loops;
    let mut from = at;
    for i in 0..m {
        let mut f = [0i64; FORM_NUMBERS];
        let next = check_index::index(program, from, to, parent, DEEPEST, variables, &mut f)?;
        forms[i] = f;
        check_operand::must_show(&f, from, next, &scope.ranges())?;
        from = next;
    }
    Ok(from)
}

// What a parameter of a kind and an own size takes, with a call's m forms put in; the size goes to `size`. A family parameter has
// the number `formal`.
fn taken_by(
    kind: Kind,
    own: &Size,
    formal: usize,
    forms: &[Form; MOST_VARIABLES],
    m: usize,
    size: &mut Form,
) -> Wanted
    requires short { Short own.now }
    requires m_le_most_variables { m ≤ most_variables }
    requires rows { Rows forms.now most_variables }
    ensures size_after { (k : Known) → wanted_of k result size.new ≡ taken (forms_of m forms.now) (kind_in kind (as_form (widened own.now)) (k.formals formal)) }
    ensures size_right { SizeRight result size.new }
{
    match kind {
        Kind::Qubit => Wanted::Wire,
        Kind::Quantum => Wanted::Register(forms::put_in(size, own, forms, m)),
        Kind::Classical => Wanted::Bit,
        Kind::Family => Wanted::Family(formal),
    }
}

// Whether an actual parameter is of the kind of a formal one, which is plain.
fn same_kind(formal: Kind, actual: Kind) -> bool
    ensures { (i j : Form) (g : Formal) → result ≡ same_kind (plain_in formal i) (kind_in actual j g) }
{
    match formal {
        Kind::Quantum => actual == Kind::Quantum,
        _ => actual == Kind::Qubit,
    }
}

// Whether the actual parameters, whose kinds stand from a row on, are of the kinds of as many formal ones.
fn same_kinds(kinds: &[u16], formal: usize, actual: usize, count: usize) -> bool
    requires count_in_bounds { formal + count ≤ length kinds.now }
    requires count_in_bounds_2 { actual + count ≤ length kinds.now }
    ensures { (formals : Formals) (sizes : List (List ℤ)) → result ≡ same_kinds (plains_at count formal kinds.now sizes) (kinds_at formals count actual kinds.now sizes) }
{
    for i in 0..count {
        let f = formal + i;
        let a = actual + i;
        let wanted = check_operand::kind_by(kinds[f]);
        let given = check_operand::kind_by(kinds[a]);
        if !same_kind(wanted, given) {
            return false;
        }
    }
    true
}

// Whether the actual parameter's size fits that of the formal one, over m index variables, for the field from `at` to `next`.
fn size_fits(
    formal: u16,
    actual: u16,
    m: usize,
    sizes: &[Size],
    at: usize,
    next: usize,
) -> Result<usize, Refusal>
    requires m_le_most_variables { m ≤ most_variables }
    requires short_rows { ShortRows sizes.now (length sizes.now) }
    requires formal_in_bounds { (size_of_row formal < length sizes.now) × (size_of_row actual < length sizes.now) }
    ensures result_value { (formals : Formals) → checked_part result ≡ size_fits at m (plain_by formal sizes.now) (plain_size (kind_by formals actual sizes.now)) }
    ensures ends_at { EndsAt next result }
{
    let Kind::Quantum = check_operand::kind_by(formal) else {
        return Ok(next);
    };
    let Kind::Quantum = check_operand::kind_by(actual) else {
        return Ok(next);
    };
    let wanted = check_operand::size_by(formal);
    let given = check_operand::size_by(actual);
    check_operand::at_least(&sizes[wanted], &sizes[given], m, at, next)
}

// Whether the actual parameters' sizes fit those of as many formal ones, over m index variables, for the field from `at` to `next`.
fn sizes_fit(
    scope: &Scope,
    formal: usize,
    actual: usize,
    count: usize,
    m: usize,
    at: usize,
    next: usize,
) -> Result<usize, Refusal>
    requires count_in_bounds { formal + count ≤ length scope.now.kinds.now }
    requires count_in_bounds_2 { actual + count ≤ length scope.now.kinds.now }
    requires m_le_most_variables { m ≤ most_variables }
    ensures result_value { (formals : Formals) → checked_part result ≡ sizes_fit at m (plains_at count formal scope.now.kinds.now scope.now.sizes.now) (kinds_at formals count actual scope.now.kinds.now scope.now.sizes.now) }
    ensures ends_at { EndsAt next result }
{
    for i in 0..count {
        let f = formal + i;
        let a = actual + i;
        size_fits(scope.kinds[f], scope.kinds[a], m, scope.sizes, at, next)?;
    }
    Ok(next)
}

// Whether the family n, passed in the field from `at` to `next`, fits what the family parameter with the number `formal` takes.
fn family_fits(
    n: usize,
    formal: usize,
    full: &FullScope,
    at: usize,
    next: usize,
) -> Result<usize, Refusal>
    requires n_lt_most_families { n < most_families }
    requires formal_in_bounds { most_families + formal < length full.now.families.now }
    ensures result_value { checked_part result ≡ family_fits at (fitting (formals_of full.now formal)) (signatures_of full.now n) }
    ensures ends_at { EndsAt next result }
{
    let row = MOST_FAMILIES + formal;
    let wanted = full.families[row];
    let given = full.families[n];
    if wanted[0] != given[0] {
        return Err(Refusal(Reason::WrongKind, at));
    }
    if wanted[1] != given[1] {
        return Err(Refusal(Reason::WrongKind, at));
    }
    let count = usize::from(wanted[1]);
    let f = usize::from(wanted[2]);
    let a = usize::from(given[2]);
    if !same_kinds(full.scope.kinds, f, a, count) {
        return Err(Refusal(Reason::WrongKind, at));
    }
    sizes_fit(&full.scope, f, a, count, usize::from(wanted[0]), at, next)
}

// The passed family at `at`, whose field ends at `next`, for a parameter whose number in the table of operands is this, in a call of a
// family with so many before it.
fn passed(
    program: &[u8],
    at: usize,
    next: usize,
    before: usize,
    number: u16,
    full: &FullScope,
) -> Result<usize, Refusal>
    requires at_bound { (at + 3 ≤ next) × (next ≤ length program.now) }
    requires number_in_bounds { most_families + size_of_row number < length full.now.families.now }
    ensures result_value { (forms : List Form) (loops : List Loop) → checked_part result ≡ call_operand (record (scope_full full.now) { loops = loops }) before forms (kind_by (formals_of full.now) number full.now.scope.sizes.now) (read_passed at (slice (at + 3) next program.now)) }
    ensures ends_at { EndsAt next result }
{
    let from = at + 3;
    if next - from < 2 {
        return Err(Refusal(Reason::BadContent, at));
    }
    let named = fields::two_bytes(program, from);
    if full.scope.visible.families <= named {
        return Err(Refusal(Reason::NotInScope, at));
    }
    if before <= named {
        return Err(Refusal(Reason::PassedTooLate, at));
    }
    if next - from != 2 {
        return Err(Refusal(Reason::BadContent, at));
    }
    let Kind::Family = check_operand::kind_by(number) else {
        return Err(Refusal(Reason::WrongKind, at));
    };
    let formal = check_operand::size_by(number);
    family_fits(named, formal, full, at, next)
}

// The operand due at `at` of a call at `parent` of a family with so many before it, for the parameter whose number in the table of
// operands is this.
fn call_operand(
    program: &[u8],
    at: usize,
    to: usize,
    parent: usize,
    before: usize,
    number: u16,
    forms: &[Form; MOST_VARIABLES],
    m: usize,
    full: &FullScope,
) -> Result<usize, Refusal>
    requires to_in_bounds { to ≤ length program.now }
    requires m_le_most_variables { m ≤ most_variables }
    requires rows { Rows forms.now most_variables }
    requires number_in_bounds { size_of_row number < length full.now.scope.sizes.now }
    requires number_in_bounds_2 { most_families + size_of_row number < length full.now.families.now }
    ensures result_value { checked_part result ≡ call_operand (scope_full full.now) before (forms_of m forms.now) (kind_by (formals_of full.now) number full.now.scope.sizes.now) (due read_operand (bad_operand 4 parent) (fields_at program.now at to)) }
    ensures passes { Passes program.now at to result }
{
    if let Some(next) = fields::with_tag(program, at, to, fields::PASSED) {
        return passed(program, at, next, before, number, full);
    }
    let mut size = [0i64; FORM_NUMBERS];
    let kind = check_operand::kind_by(number);
    let own = check_operand::size_by(number);
    let wanted = taken_by(kind, &full.scope.sizes[own], own, forms, m, &mut size);
    let mut form = [0i64; FORM_NUMBERS];
    check_operand::operand(
        program,
        at,
        to,
        parent,
        wanted,
        &size,
        &mut form,
        &full.scope,
    )
}

// The operands from `at` on of a call of a family with so many before it, for `count` parameters whose kinds and sizes stand from the
// row `first` on, and nothing after them.
fn call_operands(
    program: &[u8],
    at: usize,
    to: usize,
    parent: usize,
    before: usize,
    first: usize,
    count: usize,
    forms: &[Form; MOST_VARIABLES],
    m: usize,
    full: &FullScope,
) -> Result<usize, Refusal>
    requires to_in_bounds { to ≤ length program.now }
    requires m_le_most_variables { m ≤ most_variables }
    requires rows { Rows forms.now most_variables }
    requires count_in_bounds { first + count ≤ length full.now.scope.kinds.now }
    ensures result_value { checked_part result ≡ call_operands (scope_full full.now) parent before (forms_of m forms.now) (kinds_at (formals_of full.now) count first full.now.scope.kinds.now full.now.scope.sizes.now) (map read_argument (fields_at program.now at to)) }
    ensures ends_at { EndsAt to result }
{
    let mut from = at;
    for j in 0..count {
        let row = first + j;
        let number = full.scope.kinds[row];
        from = call_operand(program, from, to, parent, before, number, forms, m, full)?;
    }
    if from < to {
        return Err(Refusal(Reason::BadContent, parent));
    }
    Ok(to)
}

// The call at `at`, whose arguments are from `from` to `next`, of the family in a row of the table, with so many before it.
fn call_fits(
    program: &[u8],
    at: usize,
    from: usize,
    next: usize,
    before: usize,
    row: usize,
    full: &FullScope,
) -> Result<usize, Refusal>
    requires next_in_bounds { next ≤ length program.now }
    requires row_in_bounds { row < length full.now.families.now }
    ensures { checked_part result ≡ call_fits at (scope_full full.now) before (signature_in (formals_of full.now) (get_or full.now.families.now row []) full.now.scope.kinds.now full.now.scope.sizes.now) (map read_argument (fields_at program.now from next)) }
{
    let family = full.families[row];
    let m = usize::from(family[0]);
    let count = usize::from(family[1]);
    let first = usize::from(family[2]);
    let mut forms = [[0i64; FORM_NUMBERS]; MOST_VARIABLES];
    let mid = call_forms(program, from, next, at, m, &full.scope, &mut forms)?;
    call_operands(
        program, mid, next, at, before, first, count, &forms, m, full,
    )
}

// The call at `at` of the family n, whose arguments are from `from` to `next`.
fn family_call(
    program: &[u8],
    at: usize,
    from: usize,
    next: usize,
    n: usize,
    full: &FullScope,
) -> Result<usize, Refusal>
    requires next_in_bounds { next ≤ length program.now }
    ensures { checked_part result ≡ check_statement (call_of call at n (fields_at program.now from next)) (scope_full full.now) }
{
    if full.scope.visible.families <= n {
        return Err(Refusal(Reason::NotInScope, at));
    }
    call_fits(program, at, from, next, n, n, full)
}

// The call at `at` of the parameter n, whose arguments are from `from` to `next`.
fn parameter_call(
    program: &[u8],
    at: usize,
    from: usize,
    next: usize,
    n: usize,
    full: &FullScope,
) -> Result<usize, Refusal>
    requires next_in_bounds { next ≤ length program.now }
    ensures { checked_part result ≡ check_statement (call_of call_parameter at n (fields_at program.now from next)) (scope_full full.now) }
{
    if full.scope.visible.count <= n {
        return Err(Refusal(Reason::NotInScope, at));
    }
    let place = full.scope.visible.first + n;
    let number = full.scope.kinds[place];
    let Kind::Family = check_operand::kind_by(number) else {
        return Err(Refusal(Reason::WrongKind, at));
    };
    let row = MOST_FAMILIES + check_operand::size_by(number);
    call_fits(
        program,
        at,
        from,
        next,
        full.scope.visible.families,
        row,
        full,
    )
}

// The call with this tag at `at`, whose field ends at `next`.
pub fn call(
    program: &[u8],
    at: usize,
    next: usize,
    tag: u8,
    full: &FullScope,
) -> Result<usize, Refusal>
    requires at_bound { (at + 3 ≤ next) × (next ≤ length program.now) }
    ensures { checked_part result ≡ check_statement (call_reader tag at (slice (at + 3) next program.now)) (scope_full full.now) }
{
    match fields::called_number(program, at + 3, next, tag) {
        Err(reason) => Err(Refusal(reason, at)),
        Ok(named) => {
            let n = usize::from(named.number);
            let from = named.next;
            if tag == fields::PARAMETER_CALL {
                return parameter_call(program, at, from, next, n, full);
            }
            family_call(program, at, from, next, n, full)
        }
    }
}
