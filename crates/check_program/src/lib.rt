// The check of a whole program: what the fields at the top declare, one after the other, and the answer.
#![tactic(auto)]

ghost use Rattle.std.specs.Prelude.{◌≡◌, ◌+◌, ◌≤◌, ◌<◌, length};
ghost use Rattle.std.proofs.Math.Seq.{slice};
ghost use Rattle.language.specs.Read.{field, read_top, read_family, read_register, read};
ghost use Rattle.language.specs.Check.{check_top, check};
ghost use Rattle.language.specs.Tree.{qreg, creg};
ghost use Rattle.language.specs.Result.{verdict, check_result};
ghost use Rattle.language.specs.Limits.{longest_program, most_families, most_variables, most_parameters};
ghost use Rattle.fields.specs.Header.{fields_at};
ghost use Rattle.check_operand.specs.Tables.{TablesRight};
ghost use Rattle.check_call.specs.Calls.{formal_at, FamiliesRight};
ghost use Rattle.check_call.specs.Scopes.{scope_full};
ghost use Rattle.check_declaration.specs.Types.{InUseBefore, checked_rows, FormalsBefore, Stays};
ghost use Rattle.check_program.specs.Declarations.{short_program, family_in, declared_in, DeclaredRight, checked_step, StepRight, none_so_far, scope_in};
ghost use Rattle.check_program.specs.Answers.{result_told};

use check_call::{FamilyRow, FullScope};
use check_operand::{Scope, Visible};
use fields::NoHeader;
use forms::{FORM_NUMBERS, Form, SIZE_NUMBERS, Size};
use kinds::Kind;
use limits::{
    DEEPEST, LONGEST_PROGRAM, MOST_BITS, MOST_FAMILIES, MOST_LOOPS, MOST_REGISTERS, MOST_WIRES,
};
use refusals::{Reason, Refusal};

// Bytes of a program that is short.
const SHORT_PROGRAM: usize = 4_096;

// The rows of the tables of operands and of sizes, by what so many bytes can declare: a row for each register and one for each type, which
// takes 3 bytes at least, and as many for the types in family types; and a size for each register and for each type that has one, which
// takes 7 bytes at least.
const SHORT_ROWS: usize = 2 * (MOST_REGISTERS + SHORT_PROGRAM / 3 + 1);

const SHORT_SIZES: usize = (SHORT_PROGRAM + 2 * MOST_REGISTERS) / 7 + 2;

const MOST_ROWS: usize = 2 * (MOST_REGISTERS + LONGEST_PROGRAM / 3 + 1);

const MOST_SIZES: usize = (LONGEST_PROGRAM + 2 * MOST_REGISTERS) / 7 + 2;

// The rows of the table of families: one for each, and one for each family type, which has the number of a size's row.
const SHORT_FAMILIES: usize = MOST_FAMILIES + SHORT_SIZES;

const FAMILY_ROWS: usize = MOST_FAMILIES + MOST_SIZES;

// How much is declared so far: families, registers, qubits and bits; and how many rows of the table of operands are in use.
#[derive(Clone, Copy, Debug, PartialEq, Eq)]
pub struct SoFar {
    pub families: usize,
    pub rows: usize,
    pub registers: usize,
    pub qubits: usize,
    pub bits: usize,
}

// The scope of rows of the tables, outside loops.
fn full_scope<'a>(
    visible: Visible,
    families: &'a [FamilyRow],
    kinds: &'a [u16],
    sizes: &'a [Size],
    none: &'a [Form; MOST_LOOPS],
) -> FullScope<'a>
    requires no_loops { visible.loops ≡ 0 }
    requires tables_right { TablesRight visible kinds.now sizes.now none.now none.now }
    requires families_right { FamiliesRight visible families.now kinds.now }
    ensures { scope_full result ≡ scope_in visible families.now kinds.now sizes.now }
{
    let scope = Scope {
        visible,
        kinds,
        sizes,
        lows: none,
        highs: none,
    };
    FullScope { scope, families }
}

// The types and the body of the family at `at`, of m index variables, whose field ends at `next`; the types go to its rows.
fn family_body(
    program: &[u8],
    at: usize,
    next: usize,
    m: usize,
    parameters: usize,
    t: SoFar,
    families: &mut [FamilyRow],
    kinds: &mut [u16],
    sizes: &mut [Size],
) -> Result<usize, Refusal>
    requires at_bound { (at + 5 ≤ next) × (next ≤ length program.now) }
    requires m_le_most_variables { m ≤ most_variables }
    requires parameters_le_most_parameters { parameters ≤ most_parameters }
    requires families_lt_most_families { t.families < most_families }
    requires declared_right { DeclaredRight (length program.now) at t families.old kinds.old sizes.old }
    ensures sizes_after { checked_rows (formal_at families.new kinds.new sizes.new) result parameters t.rows kinds.new sizes.new ≡ family_in (declared_in t families.old kinds.old sizes.old) at m parameters (fields_at program.now (at + 5) next) }
    ensures in_use_before { InUseBefore (t.rows + parameters) t.registers next result kinds.new }
    ensures formals_before { FormalsBefore next result families.new kinds.new }
    ensures stays { Stays (length program.now) t.rows (at + 5) t.registers families.old kinds.old sizes.old families.new kinds.new sizes.new }
{
    let from = at + 5;
    let first = t.rows;
    let mid = check_declaration::parameter_types(
        program,
        from,
        next,
        at,
        m,
        parameters,
        first,
        t.registers,
        families,
        kinds,
        sizes,
    )?;
    let none = [[0i64; FORM_NUMBERS]; MOST_LOOPS];
    let visible = Visible {
        families: t.families,
        first,
        count: parameters,
        variables: m,
        loops: 0,
    };
    let full = full_scope(visible, families, kinds, sizes, &none);
    check_statement::list(program, mid, next, DEEPEST, &full)
}

// The family at `at`, whose field ends at `next`.
fn family(
    program: &[u8],
    at: usize,
    next: usize,
    t: SoFar,
    families: &mut [FamilyRow],
    kinds: &mut [u16],
    sizes: &mut [Size],
) -> Result<SoFar, Refusal>
    requires at_bound { (at + 3 ≤ next) × (next ≤ length program.now) }
    requires declared_right { DeclaredRight (length program.now) at t families.old kinds.old sizes.old }
    ensures sizes_after { checked_step result families.new kinds.new sizes.new ≡ check_top (read_family at (slice (at + 3) next program.now)) (declared_in t families.old kinds.old sizes.old) }
    ensures step_right { StepRight (length program.now) next result families.new kinds.new sizes.new }
{
    let n = t.families;
    if MOST_FAMILIES <= n {
        return Err(Refusal(Reason::TooMany, at));
    }
    let counts = check_declaration::two_counts(program, at, next)?;
    let m = counts.variables;
    let parameters = counts.parameters;
    let first = t.rows;
    family_body(program, at, next, m, parameters, t, families, kinds, sizes)?;
    families[n] = [m as u16, parameters as u16, first as u16];
    Ok(SoFar {
        families: n + 1,
        rows: first + parameters,
        ..t
    })
}

// The quantum register at `at`, whose field ends at `next`.
fn quantum_register(
    program: &[u8],
    at: usize,
    next: usize,
    t: SoFar,
    families: &[FamilyRow],
    kinds: &mut [u16],
    sizes: &mut [Size],
) -> Result<SoFar, Refusal>
    requires at_bound { (at + 3 ≤ next) × (next ≤ length program.now) }
    requires declared_right { DeclaredRight (length program.now) at t families.now kinds.old sizes.old }
    ensures sizes_after { checked_step result families.now kinds.new sizes.new ≡ check_top (read_register qreg at (slice (at + 3) next program.now)) (declared_in t families.now kinds.old sizes.old) }
    ensures step_right { StepRight (length program.now) next result families.now kinds.new sizes.new }
{
    let n = t.registers;
    let total = t.qubits;
    let size = check_declaration::register(
        program,
        at,
        next,
        Kind::Quantum,
        n,
        total,
        MOST_WIRES,
        kinds,
        sizes,
    )?;
    Ok(SoFar {
        registers: n + 1,
        qubits: total + size,
        ..t
    })
}

// The classical register at `at`, whose field ends at `next`.
fn classical_register(
    program: &[u8],
    at: usize,
    next: usize,
    t: SoFar,
    families: &[FamilyRow],
    kinds: &mut [u16],
    sizes: &mut [Size],
) -> Result<SoFar, Refusal>
    requires at_bound { (at + 3 ≤ next) × (next ≤ length program.now) }
    requires declared_right { DeclaredRight (length program.now) at t families.now kinds.old sizes.old }
    ensures sizes_after { checked_step result families.now kinds.new sizes.new ≡ check_top (read_register creg at (slice (at + 3) next program.now)) (declared_in t families.now kinds.old sizes.old) }
    ensures step_right { StepRight (length program.now) next result families.now kinds.new sizes.new }
{
    let n = t.registers;
    let total = t.bits;
    let size = check_declaration::register(
        program,
        at,
        next,
        Kind::Classical,
        n,
        total,
        MOST_BITS,
        kinds,
        sizes,
    )?;
    Ok(SoFar {
        registers: n + 1,
        bits: total + size,
        ..t
    })
}

// The top field of a tag at `at`, whose field ends at `next`, which declares nothing.
fn top_action(
    program: &[u8],
    at: usize,
    next: usize,
    tag: u8,
    t: SoFar,
    families: &[FamilyRow],
    kinds: &[u16],
    sizes: &[Size],
) -> Result<SoFar, Refusal>
    requires at_bound { (at + 3 ≤ next) × (next ≤ length program.now) }
    requires declared_right { DeclaredRight (length program.now) at t families.now kinds.now sizes.now }
    requires fact { (tag ≡ 1 → ⊥) × (tag ≡ 2 → ⊥) × (tag ≡ 3 → ⊥) }
    ensures sizes_value { checked_step result families.now kinds.now sizes.now ≡ check_top (read_top (field at tag (slice (at + 3) next program.now))) (declared_in t families.now kinds.now sizes.now) }
    ensures step_right { StepRight (length program.now) next result families.now kinds.now sizes.now }
{
    let none = [[0i64; FORM_NUMBERS]; MOST_LOOPS];
    let visible = Visible {
        families: t.families,
        first: 0,
        count: t.registers,
        variables: 0,
        loops: 0,
    };
    let full = full_scope(visible, families, kinds, sizes, &none);
    check_statement::action(program, at, next, tag, &full)?;
    Ok(t)
}

// The top field of a tag at `at`, whose field ends at `next`.
fn top_field(
    program: &[u8],
    at: usize,
    next: usize,
    tag: u8,
    t: SoFar,
    families: &mut [FamilyRow],
    kinds: &mut [u16],
    sizes: &mut [Size],
) -> Result<SoFar, Refusal>
    requires at_bound { (at + 3 ≤ next) × (next ≤ length program.now) }
    requires declared_right { DeclaredRight (length program.now) at t families.old kinds.old sizes.old }
    ensures sizes_after { checked_step result families.new kinds.new sizes.new ≡ check_top (read_top (field at tag (slice (at + 3) next program.now))) (declared_in t families.old kinds.old sizes.old) }
    ensures step_right { StepRight (length program.now) next result families.new kinds.new sizes.new }
{
    match tag {
        fields::FAMILY => family(program, at, next, t, families, kinds, sizes),
        fields::QREG => quantum_register(program, at, next, t, families, kinds, sizes),
        fields::CREG => classical_register(program, at, next, t, families, kinds, sizes),
        _ => top_action(program, at, next, tag, t, families, kinds, sizes),
    }
}

// The fields of a program, one after the other, with nothing declared before them.
fn top_fields(
    program: &[u8],
    families: &mut [FamilyRow],
    kinds: &mut [u16],
    sizes: &mut [Size],
) -> Result<(), Refusal>
    requires { DeclaredRight (length program.now) 0 none_so_far families.old kinds.old sizes.old }
    ensures { result_told result ≡ verdict (check (read program.now)) }
{
    let to = program.len();
    let mut at: usize = 0;
    let mut t = SoFar {
        families: 0,
        rows: MOST_REGISTERS,
        registers: 0,
        qubits: 0,
        bits: 0,
    };
    loop {
        match fields::header_at(program, at, to) {
            Err(NoHeader::End) => return Ok(()),
            Err(NoHeader::Cut) => return Err(Refusal(Reason::BadHeader, at)),
            Ok(header) => {
                let next = header.next;
                t = top_field(program, at, next, header.tag, t, families, kinds, sizes)?;
                at = next;
            }
        }
    }
}

// The check of a program that is short: its tables are small, so that they are cleared in less time.
fn check_short(program: &[u8]) -> Result<(), Refusal>
    requires { length program.now ≤ short_program }
    ensures { result_told result ≡ verdict (check (read program.now)) }
{
    let mut families = [[0u16; 3]; SHORT_FAMILIES];
    let mut kinds = [0u16; SHORT_ROWS];
    let mut sizes = [[0i32; SIZE_NUMBERS]; SHORT_SIZES];
    top_fields(program, &mut families, &mut kinds, &mut sizes)
}

// The check of any program within the limit.
fn check_long(program: &[u8]) -> Result<(), Refusal>
    requires { length program.now ≤ longest_program }
    ensures { result_told result ≡ verdict (check (read program.now)) }
{
    let mut families = [[0u16; 3]; FAMILY_ROWS];
    let mut kinds = [0u16; MOST_ROWS];
    let mut sizes = [[0i32; SIZE_NUMBERS]; MOST_SIZES];
    top_fields(program, &mut families, &mut kinds, &mut sizes)
}

// The check of a program.
pub fn check_program(program: &[u8]) -> Result<(), Refusal>
    ensures { result_told result ≡ check_result program.now }
{
    if LONGEST_PROGRAM < program.len() {
        return Err(Refusal(Reason::TooLong, 0));
    }
    if program.len() <= SHORT_PROGRAM {
        return check_short(program);
    }
    check_long(program)
}
