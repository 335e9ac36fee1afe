// The check of phases: their k, and their operands.
#![tactic(auto)]

ghost use Rattle.std.specs.Prelude.{◌≡◌, ◌≤◌, length};
ghost use Rattle.language.specs.Tree.{bad_index};
ghost use Rattle.language.specs.Read.{due, outer_index};
ghost use Rattle.language.specs.Check.{check_natural};
ghost use Rattle.fields.specs.Header.{fields_at};
ghost use Rattle.check_operand.specs.Tables.{Known};
ghost use Rattle.check_index.specs.Answers.{checked_part, Passes};
ghost use Rattle.check_operand.specs.Scopes.{scope_at};
ghost use Rattle.check_phase.specs.Phases.{phase_due, cphase_due};

use check_operand::Scope;
use forms::FORM_NUMBERS;
use limits::DEEPEST;
use refusals::Refusal;

// The index that is due at `from` in the field at `at` whose content ends at `next`; it must be shown ≥ 0.
fn natural(
    program: &[u8],
    from: usize,
    next: usize,
    at: usize,
    scope: &Scope,
) -> Result<usize, Refusal>
    requires next_in_bounds { next ≤ length program.now }
    ensures result_value { (k : Known) → checked_part result ≡ check_natural (scope_at k scope.now) (due outer_index (bad_index 4 at) (fields_at program.now from next)) }
    ensures passes { Passes program.now from next result }
{
    let mut f = [0i64; FORM_NUMBERS];
    let variables = scope.visible.variables + scope.visible.loops;
    let mid = check_index::index(program, from, next, at, DEEPEST, variables, &mut f)?;
    check_operand::must_show(&f, from, mid, &scope.ranges())
}

// The phase at `at`, whose content is from `from` to `next`.
pub fn phase(
    program: &[u8],
    from: usize,
    next: usize,
    at: usize,
    scope: &Scope,
) -> Result<usize, Refusal>
    requires next_in_bounds { next ≤ length program.now }
    ensures { (k : Known) → checked_part result ≡ phase_due (scope_at k scope.now) at (fields_at program.now from next) }
{
    let mid = natural(program, from, next, at, scope)?;
    check_operand::one_wire(program, mid, next, at, scope)
}

// The cphase at `at`, whose content is from `from` to `next`.
pub fn cphase(
    program: &[u8],
    from: usize,
    next: usize,
    at: usize,
    scope: &Scope,
) -> Result<usize, Refusal>
    requires next_in_bounds { next ≤ length program.now }
    ensures { (k : Known) → checked_part result ≡ cphase_due (scope_at k scope.now) at (fields_at program.now from next) }
{
    let mid = natural(program, from, next, at, scope)?;
    check_operand::two_wires(program, mid, next, at, scope)
}
