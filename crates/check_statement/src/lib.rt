// The check of statements: gates, phases, calls, reverse, loops, lists of them, and top fields that declare nothing.
#![tactic(auto)]

ghost use Rattle.std.specs.Prelude.{◌≡◌, List, ℕ, ◌+◌, ◌≤◌, length, take};
ghost use Rattle.language.specs.Limits.{most_loops};
ghost use Rattle.std.proofs.Math.Seq.{slice};
ghost use Rattle.language.specs.Tree.{bad_statement};
ghost use Rattle.language.specs.Read.{field, deep_statement, read_statement, statements_by, for_of, read_if, read_top};
ghost use Rattle.language.specs.Check.{check_statement, check_statements, Declared, top_scope, check_top};
ghost use Rattle.fields.specs.Header.{fields_at};
ghost use Rattle.check_index.specs.Answers.{checked_part};
ghost use Rattle.refusals.specs.Reasons.{number_of};
ghost use Rattle.check_statement.specs.Statements.{StatementSays, checked_declared};
ghost use Rattle.check_call.specs.Scopes.{scope_full};

use check_call::{FullScope, call};
use check_operand::{Scope, Visible, Wanted, one_wire, two_wires};
use fields::NoHeader;
use forms::{FORM_NUMBERS, Form};
use limits::{DEEPEST, MOST_LOOPS};
use refusals::{Reason, Refusal};

// Levels of the statements in a conditional, which stands at the top.
const IN_CONDITIONAL: usize = DEEPEST - 1;

// What a statement's tag says.
#[derive(Clone, Copy, Debug, PartialEq, Eq)]
pub enum StatementTag {
    Gate,
    Cx,
    Phase,
    Cphase,
    Call,
    Reverse,
    For,
    Other,
}

fn statement_tag(tag: u8) -> StatementTag
    ensures { StatementSays tag result }
{
    match tag {
        fields::H | fields::T | fields::TDG => StatementTag::Gate,
        fields::CX => StatementTag::Cx,
        fields::REVERSE => StatementTag::Reverse,
        fields::FOR => StatementTag::For,
        fields::PHASE => StatementTag::Phase,
        fields::CPHASE => StatementTag::Cphase,
        fields::CALL | fields::LONG_CALL | fields::PARAMETER_CALL => StatementTag::Call,
        _ => StatementTag::Other,
    }
}

// The refusal of a field of a tag where a statement would be past the deepest level.
fn too_deep(tag: u8) -> Reason
    ensures { (p : ℕ) (content : List ℕ) → bad_statement (number_of result) p ≡ deep_statement (field p tag content) }
{
    if tag < fields::H {
        return Reason::BadTag;
    }
    if fields::PARAMETER_CALL < tag {
        return Reason::BadTag;
    }
    Reason::TooDeep
}

// The statement of a tag at `at`, whose field ends at `next`.
#[cycle(list_one_statement_repeated)]
fn one_statement(
    program: &[u8],
    at: usize,
    next: usize,
    tag: u8,
    levels: usize,
    full: &FullScope,
) -> Result<usize, Refusal>
    requires at_bound { (at + 3 ≤ next) × (next ≤ length program.now) }
    ensures { checked_part result ≡ check_statement (read_statement levels (field at tag (slice (at + 3) next program.now))) (scope_full full.now) }
{
    if levels == 0 {
        return Err(Refusal(too_deep(tag), at));
    }
    let below = levels - 1;
    let from = at + 3;
    match statement_tag(tag) {
        StatementTag::Gate => one_wire(program, from, next, at, &full.scope),
        StatementTag::Cx => two_wires(program, from, next, at, &full.scope),
        StatementTag::Phase => check_phase::phase(program, from, next, at, &full.scope),
        StatementTag::Cphase => check_phase::cphase(program, from, next, at, &full.scope),
        StatementTag::Call => call(program, at, next, tag, full),
        StatementTag::Reverse => list(program, from, next, below, full),
        StatementTag::For => repeated(program, at, next, below, full),
        StatementTag::Other => Err(Refusal(Reason::BadTag, at)),
    }
}

// The statements from `from` to `to`. Copied into each place, so that an answer is not handed on once more.
#[inline(always)]
#[cycle(list_one_statement_repeated)]
pub fn list(
    program: &[u8],
    from: usize,
    to: usize,
    levels: usize,
    full: &FullScope,
) -> Result<usize, Refusal>
    requires to_in_bounds { to ≤ length program.now }
    ensures { checked_part result ≡ check_statements (statements_by (read_statement levels) (fields_at program.now from to)) (scope_full full.now) }
{
    let mut at = from;
    loop {
        match fields::header_at(program, at, to) {
            Err(NoHeader::End) => return Ok(to),
            Err(NoHeader::Cut) => return Err(Refusal(Reason::BadHeader, at)),
            Ok(header) => {
                one_statement(program, at, header.next, header.tag, levels, full)?;
                at = header.next;
            }
        }
    }
}

// The bounds of as many loops as may be open.
fn most_bounds(bounds: &[Form]) -> &[Form; MOST_LOOPS]
    requires { most_loops ≤ length bounds.now }
    ensures { result.now ≡ take most_loops bounds.now }
{
    bounds.first_chunk::<MOST_LOOPS>().unwrap()
}

// The loop at `at`, whose field ends at `next` and whose statements may nest so many levels.
// A frame of its own: statements that are no loop need no room for bounds.
#[inline(never)]
#[cycle(list_one_statement_repeated)]
fn repeated(
    program: &[u8],
    at: usize,
    next: usize,
    levels: usize,
    full: &FullScope,
) -> Result<usize, Refusal>
    requires at_bound { (at + 3 ≤ next) × (next ≤ length program.now) }
    ensures { checked_part result ≡ check_statement (for_of (read_statement levels) at (fields_at program.now (at + 3) next)) (scope_full full.now) }
{
    let visible = full.scope.visible;
    let n = visible.loops;
    if MOST_LOOPS <= n {
        return Err(Refusal(Reason::TooMany, at));
    }
    // copied first, where no array has to be cleared before
    let around_low = most_bounds(full.scope.lows);
    let mut lows = *around_low;
    let around_high = most_bounds(full.scope.highs);
    let mut highs = *around_high;
    let loops = n + 1;
    let variables = visible.variables + n;
    let mut low = [0i64; FORM_NUMBERS];
    let mut high = [0i64; FORM_NUMBERS];
    let inside = at + 3;
    let from = check_index::two_indexes(program, inside, next, at, variables, &mut low, &mut high)?;
    lows[n] = low;
    highs[n] = high;
    let scope = Scope {
        visible: Visible { loops, ..visible },
        kinds: full.scope.kinds,
        sizes: full.scope.sizes,
        lows: &lows,
        highs: &highs,
    };
    let inner = FullScope {
        scope,
        families: full.families,
    };
    list(program, from, next, levels, &inner)
}

// The conditional at `at`, whose field ends at `next`.
fn conditional(program: &[u8], at: usize, next: usize, full: &FullScope) -> Result<usize, Refusal>
    requires at_bound { (at + 3 ≤ next) × (next ≤ length program.now) }
    ensures { (d : Declared) → top_scope d ≡ (scope_full full.now) → checked_declared result d ≡ check_top (read_if at (slice (at + 3) next program.now)) d }
{
    let from = at + 3;
    if next <= from {
        return Err(Refusal(Reason::BadContent, at));
    }
    let value = usize::from(program[from]);
    if 1 < value {
        return Err(Refusal(Reason::BadCondition, at));
    }
    let none = [0i64; FORM_NUMBERS];
    let mut form = [0i64; FORM_NUMBERS];
    let inner = at + 4;
    let mid = check_operand::operand(
        program,
        inner,
        next,
        at,
        Wanted::Bit,
        &none,
        &mut form,
        &full.scope,
    )?;
    list(program, mid, next, IN_CONDITIONAL, full)
}

// The top field of a tag at `at`, whose field ends at `next`, if it declares nothing.
pub fn action(
    program: &[u8],
    at: usize,
    next: usize,
    tag: u8,
    full: &FullScope,
) -> Result<usize, Refusal>
    requires at_bound { (at + 3 ≤ next) × (next ≤ length program.now) }
    requires declares_nothing { (tag ≡ 1 → ⊥) × (tag ≡ 2 → ⊥) × (tag ≡ 3 → ⊥) }
    ensures { (d : Declared) → top_scope d ≡ (scope_full full.now) → checked_declared result d ≡ check_top (read_top (field at tag (slice (at + 3) next program.now))) d }
{
    let from = at + 3;
    match tag {
        fields::MEASURE => check_operand::two_operands(
            program,
            from,
            next,
            at,
            Wanted::Bit,
            &full.scope,
        ),
        fields::RESET => one_wire(program, from, next, at, &full.scope),
        fields::IF => conditional(program, at, next, full),
        _ => one_statement(program, at, next, tag, DEEPEST, full),
    }
}
