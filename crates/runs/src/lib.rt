// Whole runs and instances of accepted programs.
#![tactic(auto)]

ghost use Rattle.std.specs.Prelude.{◌≡◌, true, [], ◌∷◌, ◌++◌, ℕ, ◌+◌, ◌*◌, ◌≤◌, ◌<◌, length, take};
ghost use Rattle.std.proofs.Math.Option.{some};
ghost use Rattle.std.proofs.Math.ListN.{get_elem?};
ghost use Rattle.std.proofs.Math.Seq.{slice};
ghost use Rattle.language.specs.Limits.{most_families, most_registers, most_variables, longest_program};
ghost use Rattle.language.specs.Read.{field, fields, read, read_top};
ghost use Rattle.language.specs.Machine.{act_top, when_bit, run_tops, run_program, nothing_yet, all_declared, instance_run};
ghost use Rattle.language.specs.Result.{conclusion_of, instance_of};
ghost use Rattle.indexes.specs.Values.{most_values};
ghost use Rattle.operands.specs.Meanings.{the_bit, registers_of};
ghost use Rattle.records.specs.Outcomes.{Does, condition_of};
ghost use Rattle.gates.specs.Gates.{frame_in};
ghost use Rattle.calls.specs.Families.{Entry, Tabled};
ghost use Rattle.unroller.specs.Runs.{list_run};
ghost use Rattle.runs.specs.Whole.{total_of, more_locations, register_from, size_in, RegisterRoom, Acceptable, more_families, DeclareReady, Declares, DeclaringTag, FullTable, started, family_with};
ghost use Rattle.runs.specs.TopFields.{globals_in, top_mode, under_mode, if_at, WholeField, IfReady, ActReady};
ghost use Rattle.runs.specs.Conclusions.{concluded};

use gates::{LEVELS, Mode};
use indexes::VALUES;
use kinds::Kind;
use layout::Unlaid;
use limits::{MOST_FAMILIES, MOST_PARAMETERS};
use operands::{Bit, REGISTER_NUMBERS, Scope};
use records::{Condition, State, Stop};
use refusals::Reason;

// Levels of nested statements under a condition.
const UNDER_CONDITION: u8 = LEVELS - 1;

// How much a program has declared so far: families, registers, qubits and bits.
#[derive(Clone, Copy)]
pub struct Totals {
    pub families: usize,
    pub registers: usize,
    pub qubits: usize,
    pub bits: usize,
}

// Declares the register with this content: it goes to the table.
fn register(content: &[u8], quantum: bool, t: Totals, regs: &mut [u16; REGISTER_NUMBERS]) -> Totals
    requires { RegisterRoom content.now t.registers (total_of quantum t) }
    ensures value { result ≡ more_locations quantum t (size_in content.now) }
    ensures regs_after { registers_of (take (3 * (t.registers + 1)) regs.new) ≡ registers_of (take (3 * t.registers) regs.old) ++ (register_from quantum (total_of quantum t) (size_in content.now) ∷ []) }
{
    let n = fields::two_bytes(content, 0);
    let count = t.registers;
    let registers = count + 1;
    if quantum {
        let first = t.qubits;
        operands::declare(regs, count, Kind::Quantum, first as u16, n as u16);
        let qubits = first + n;
        return Totals {
            registers,
            qubits,
            ..t
        };
    }
    let first = t.bits;
    operands::declare(regs, count, Kind::Classical, first as u16, n as u16);
    let bits = first + n;
    Totals {
        registers,
        bits,
        ..t
    }
}

// The scope at the top: the first so many registers of the table.
fn top_scope(registers: usize) -> Scope
    requires { registers ≤ most_registers }
    ensures { (result.top ≡ true) × (result.count ≡ registers) }
{
    let params = [operands::no_parameter(); MOST_PARAMETERS];
    let count = registers as u8;
    Scope {
        params,
        count,
        top: true,
    }
}

// That a bit has a value, 0 or 1.
fn condition(value: u8, b: Bit) -> Condition
    requires { value ≤ 1 }
    ensures { condition_of result ≡ when_bit (the_bit b.0) value }
{
    if value == 0 {
        return Condition::IsZero(b);
    }
    Condition::IsOne(b)
}

// How statements at the top are run, or those of a family with so many values.
fn top_mode(limit: u64, seen: u16, many: u8) -> Mode
    ensures { result ≡ top_mode limit seen many }
{
    Mode {
        limit,
        families_visible: seen,
        levels: LEVELS,
        variables: many,
        reversed: false,
        condition: Condition::Always,
    }
}

// How statements under a condition are run.
fn under_mode(limit: u64, seen: u16, condition: Condition) -> Mode
    ensures { result ≡ under_mode limit seen condition }
{
    Mode {
        limit,
        families_visible: seen,
        levels: UNDER_CONDITION,
        variables: 0,
        reversed: false,
        condition,
    }
}

// Runs the statements of the program from `from` to `to`, once: the way into the cycle.
fn once(
    program: &[u8],
    from: usize,
    to: usize,
    vars: &mut [i32; VALUES],
    scope: Scope,
    regs: &[u16; REGISTER_NUMBERS],
    table: &[u16; MOST_FAMILIES],
    mode: Mode,
    st: State,
    out: &mut [u8],
) -> Result<State, Stop>
    requires from_le_to { (from ≤ to) × (to ≤ length program.now) }
    requires levels_bound { mode.variables + mode.levels ≤ most_values }
    requires tabled { Tabled program.now table.now mode.families_visible }
    ensures { Does out.old st out.new result (list_run mode (length out.old) from (slice from to program.now) program.now (frame_in mode (take mode.variables vars.old) scope regs.now)) }
{
    unroller::run_list(
        program, 0, from, to, from, 0, 1, false, vars, scope, regs, program, table, mode, st, out,
    )
}

// Runs the if from `at` to `to`, whose step is taken.
fn conditional(
    program: &[u8],
    at: usize,
    to: usize,
    seen: u16,
    scope: Scope,
    regs: &[u16; REGISTER_NUMBERS],
    table: &[u16; MOST_FAMILIES],
    limit: u64,
    st: State,
    out: &mut [u8],
) -> Result<State, Stop>
    requires whole_field { WholeField program.now at to }
    requires if_ready { IfReady (slice (at + 3) to program.now) }
    requires tabled { Tabled program.now table.now seen }
    ensures { Does out.old st out.new result (if_at limit (length out.old) at (slice (at + 3) to program.now) (take seen (all_declared limit (length out.old) (read program.now) [])) (frame_in (top_mode limit seen 0) [] scope regs.now)) }
{
    let mut vars = [0i32; VALUES];
    let from = at + 3;
    let first = from + 1;
    let Ok(header) = fields::header_at(program, first, to) else {
        return Err(Stop::Stuck);
    };
    let b = operands::bit_at(program, first, to, &vars, 0, scope, regs).map_err(|fault| gates::stop(
        fault, at, st,
    ))?;
    let mode = under_mode(limit, seen, condition(program[from], b));
    once(
        program,
        header.next,
        to,
        &mut vars,
        scope,
        regs,
        table,
        mode,
        st,
        out,
    )
}

// Runs the top field with this tag from `at` to `next`, which declares nothing, after so much is declared. A statement is a list
// of one field, so that the cycle has one way in.
fn act_top(
    program: &[u8],
    at: usize,
    next: usize,
    tag: u8,
    t: Totals,
    regs: &[u16; REGISTER_NUMBERS],
    table: &[u16; MOST_FAMILIES],
    limit: u64,
    st: State,
    out: &mut [u8],
) -> Result<State, Stop>
    requires act_ready { ActReady tag (slice (at + 3) next program.now) × WholeField program.now at next }
    requires program_value { fields at (slice at next program.now) ≡ (field at tag (slice (at + 3) next program.now) ∷ []) }
    requires registers_le_most_registers { (t.registers ≤ most_registers) × (t.families ≤ most_families) }
    requires tabled { Tabled program.now table.now t.families }
    ensures { (q b : ℕ) → Does out.old st out.new result (act_top limit (length out.old) (read_top (field at tag (slice (at + 3) next program.now))) (globals_in limit (length out.old) program.now t.families (take (3 * t.registers) regs.now) q b)) }
{
    let mut vars = [0i32; VALUES];
    let seen = t.families as u16;
    let scope = top_scope(t.registers);
    let mode = top_mode(limit, seen, 0);
    if tag == 0 || fields::IF < tag {
        return once(
            program, at, next, &mut vars, scope, regs, table, mode, st, out,
        );
    }
    let s = records::take_step(limit, at, st)?;
    let from = at + 3;
    match tag {
        fields::MEASURE => {
            reset_measure::measure(program, from, next, at, &vars, scope, regs, mode, s, out)
        }
        fields::RESET => {
            reset_measure::reset(program, from, next, at, &vars, scope, regs, mode, s, out)
        }
        _ => conditional(program, at, next, seen, scope, regs, table, limit, s, out),
    }
}

// One family more.
fn more_families(t: Totals) -> Totals
    requires { t.families < most_families }
    ensures { result ≡ more_families t }
{
    let families = t.families + 1;
    Totals { families, ..t }
}

// Declares what the top field with this tag and content declares.
fn declare(content: &[u8], tag: u8, t: Totals, regs: &mut [u16; REGISTER_NUMBERS]) -> Totals
    requires { DeclareReady tag content.now t }
    ensures { Declares tag content.now t regs.old regs.new result }
{
    match tag {
        fields::FAMILY => more_families(t),
        fields::QREG => register(content, true, t, regs),
        _ => register(content, false, t, regs),
    }
}

// Whether a top field with this tag declares something.
fn is_declaring(tag: u8) -> bool
    ensures { DeclaringTag tag result }
{
    matches!(tag, fields::FAMILY | fields::QREG | fields::CREG)
}

// Runs the top fields of a program, one after the other. The table of families is full, and that of registers is filled.
fn top_fields(
    program: &[u8],
    table: &[u16; MOST_FAMILIES],
    regs: &mut [u16; REGISTER_NUMBERS],
    limit: u64,
    out: &mut [u8],
) -> Result<State, Stop>
    requires acceptable { Acceptable program.now }
    requires full_table { FullTable program.now table.now }
    ensures { Does out.old started out.new result (run_tops limit (length out.old) (read program.now) nothing_yet) }
{
    let to = program.len();
    let mut at: usize = 0;
    let mut t = Totals {
        families: 0,
        registers: 0,
        qubits: 0,
        bits: 0,
    };
    let mut s = State {
        written: 0,
        steps: 0,
    };
    while at < to {
        let Ok(header) = fields::header_at(program, at, to) else {
            return Err(Stop::Stuck);
        };
        let next = header.next;
        let content = &program[at + 3..next];
        if is_declaring(header.tag) {
            t = declare(content, header.tag, t, regs);
            at = next;
            continue;
        }
        s = act_top(program, at, next, header.tag, t, regs, table, limit, s, out)?;
        at = next;
    }
    Ok(s)
}

// Runs an accepted program.
pub fn run(program: &[u8], limit: u64, out: &mut [u8]) -> Result<State, Stop>
    requires { Acceptable program.now }
    ensures { concluded out.new result ≡ conclusion_of out.old (run_program limit (length out.old) (read program.now)) }
{
    let mut table = [0u16; MOST_FAMILIES];
    let mut regs = [0u16; REGISTER_NUMBERS];
    fields::families(program, &mut table);
    top_fields(program, &table, &mut regs, limit, out)
}

// Lays out the parameters of the family k, whose field is at `at`, at these sizes, and runs its body.
fn placed(
    program: &[u8],
    at: usize,
    k: u16,
    table: &[u16; MOST_FAMILIES],
    values: &mut [i32; VALUES],
    many: u8,
    limit: u64,
    out: &mut [u8],
) -> Result<State, Stop>
    requires entry { Entry program.now k at }
    requires tabled { Tabled program.now table.now k }
    requires many_le_most_variables { many ≤ most_variables }
    ensures { Does out.old started out.new result (instance_run (family_with limit (length out.old) program.now k at) (take many values.old)) }
{
    let st = State {
        written: 0,
        steps: 0,
    };
    let to = calls::past(program, at);
    let from = at + 5;
    let count = usize::from(program[at + 4]);
    match layout::lay_out(program, from, to, count, values, usize::from(many)) {
        Err(Unlaid::Refused(reason, place)) => Err(Stop::Ended(reason, place as u16, st)),
        Err(Unlaid::Stuck) => Err(Stop::Stuck),
        Ok(scope) => {
            let body = calls::body_start(program, at);
            let mode = top_mode(limit, k, many);
            let none = [0u16; REGISTER_NUMBERS];
            once(
                program, body, to, values, scope, &none, table, mode, st, out,
            )
        }
    }
}

// The instance of the family k, whose field is at `at`, at the sizes that these bytes say.
fn sized(
    program: &[u8],
    at: usize,
    k: u16,
    table: &[u16; MOST_FAMILIES],
    sizes: &[u8],
    limit: u64,
    out: &mut [u8],
) -> Result<State, Stop>
    requires entry { Entry program.now k at }
    requires tabled { Tabled program.now table.now k }
    ensures { concluded out.new result ≡ instance_of (some (family_with limit (length out.old) program.now k at)) sizes.now out.old }
{
    let none = State {
        written: 0,
        steps: 0,
    };
    let to = calls::past(program, at);
    let from = at + 5;
    let count = usize::from(program[at + 4]);
    if layout::takes_family(program, from, to, count) {
        return Err(Stop::Ended(Reason::HasFamilyParameter, 0, none));
    }
    let many = program[at + 3];
    let mut values = [0i32; VALUES];
    if let Err(reason) = layout::read_sizes(sizes, usize::from(many), &mut values) {
        return Err(Stop::Ended(reason, 0, none));
    }
    placed(program, at, k, table, &mut values, many, limit, out)
}

// An instance of a family of an accepted program.
pub fn instance(
    program: &[u8],
    family: usize,
    sizes: &[u8],
    limit: u64,
    out: &mut [u8],
) -> Result<State, Stop>
    requires { Acceptable program.now }
    ensures { concluded out.new result ≡ instance_of (get_elem? (all_declared limit (length out.old) (read program.now) []) family) sizes.now out.old }
{
    let mut table = [0u16; MOST_FAMILIES];
    let n = fields::families(program, &mut table);
    if n <= family {
        let none = State {
            written: 0,
            steps: 0,
        };
        return Err(Stop::Ended(Reason::NoSuchFamily, 0, none));
    }
    let at = usize::from(table[family]);
    sized(program, at, family as u16, &table, sizes, limit, out)
}
