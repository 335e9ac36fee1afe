// What the statements that hold no statements do, and the numbers of a loop.
#![tactic(auto)]

ghost use Rattle.std.specs.Prelude.{◌≡◌, true, false, ◌+◌, ◌-◌, ◌<◌, ◌≤◌, length, take, ◌-ℤ◌};
ghost use Rattle.std.proofs.Math.Seq.{slice};
ghost use Rattle.language.specs.Limits.{longest_program};
ghost use Rattle.language.specs.Machine.{rounds_of, start_of};
ghost use Rattle.language.specs.Form.{in_range};
ghost use Rattle.indexes.specs.Values.{most_values};
ghost use Rattle.records.specs.Outcomes.{op_number};
ghost use Rattle.gates.specs.Gates.{code_of, frame_in, direction_of, most_rounds, Repeated, turn_of, nameless_of, Entered, stop_of, OnWires, deeper_of, inner_of, entered_of};

use indexes::{Fault, VALUES};
use limits::DEEPEST;
use operands::{REGISTER_NUMBERS, Scope};
use records::{Condition, Op, State, Stop};
use refusals::Reason;

// Levels of nested statements in a body.
pub const LEVELS: u8 = DEEPEST as u8;

// What stays: the limit of steps, how many families may be called, the levels left, how many values are in scope, the
// direction and the condition.
#[derive(Clone, Copy)]
pub struct Mode {
    pub limit: u64,
    pub families_visible: u16,
    pub levels: u8,
    pub variables: u8,
    pub reversed: bool,
    pub condition: Condition,
}

// The op of a gate in a direction.
pub fn code(tag: u8, reversed: bool) -> Op
    ensures { op_number result ≡ code_of tag reversed }
{
    match tag {
        fields::H => Op::H,
        fields::T if reversed => Op::Tdg,
        fields::T => Op::T,
        _ if reversed => Op::T,
        _ => Op::Tdg,
    }
}

// How a run stops at a fault in the statement at `place`.
pub fn stop(fault: Fault, place: usize, st: State) -> Stop
    requires { place ≤ longest_program }
    ensures { result ≡ stop_of fault place st }
{
    match fault {
        Fault::Over => Stop::Ended(Reason::IndexOutOfRange, place as u16, st),
        Fault::Stuck => Stop::Stuck,
    }
}

// Writes a record of an op, with a k or 0 for it, on the single wire that is due at `from` in the content that ends at `to`, or on
// the two wires that are due there, which must differ. Its step is taken.
pub fn on_wires(
    bytes: &[u8],
    from: usize,
    to: usize,
    single: bool,
    op: u8,
    k: usize,
    place: usize,
    vars: &[i32; VALUES],
    scope: Scope,
    regs: &[u16; REGISTER_NUMBERS],
    mode: Mode,
    st: State,
    out: &mut [u8],
) -> Result<State, Stop>
    requires to_in_bounds { to ≤ length bytes.now }
    requires variables_le_most_values { (mode.variables ≤ most_values) × (place ≤ longest_program) }
    ensures { OnWires single out.old st out.new result mode place (slice from to bytes.now) (frame_in mode (take mode.variables vars.now) scope regs.now) op k }
{
    let many = usize::from(mode.variables);
    let stopped = |fault| stop(fault, place, st);
    let x = operands::wire_at(bytes, from, to, vars, many, scope, regs).map_err(stopped)?;
    if single {
        return records::write_record(out, st, place, op, x.0, 0, k, mode.condition);
    }
    let Ok(header) = fields::header_at(bytes, from, to) else {
        return Err(Stop::Stuck);
    };
    let y = operands::wire_at(bytes, header.next, to, vars, many, scope, regs).map_err(stopped)?;
    if x == y {
        return Err(Stop::Ended(Reason::OneWireTwice, place as u16, st));
    }
    records::write_record(out, st, place, op, x.0, y.0, k, mode.condition)
}

// The number of a loop's rounds.
fn tally(x: i64, y: i64) -> usize
    requires { (in_range x ≡ true) × (in_range y ≡ true) }
    ensures { (result ≡ rounds_of (y -ℤ x)) × (result ≤ most_rounds) }
{
    if y < x {
        return 0;
    }
    let d = y - x;
    (d as usize) + 1
}

// The value of the first round: rising from the low bound, or falling from the high one.
fn first_value(reversed: bool, x: i64, y: i64) -> i64
    ensures { result ≡ start_of (direction_of reversed) x y }
{
    if reversed { y } else { x }
}

// How a body runs: from which value on, how often, and where it begins.
#[derive(Clone, Copy, Debug, PartialEq, Eq)]
pub struct Repeats {
    pub start: i64,
    pub total: usize,
    pub body: usize,
}

// How the body of the reverse or the for runs whose content is from `from` to `to`: of a reverse once.
pub fn repeats_of(
    bytes: &[u8],
    from: usize,
    to: usize,
    tag: u8,
    vars: &[i32; VALUES],
    many: usize,
    reversed: bool,
) -> Result<Repeats, Fault>
    requires to_in_bounds { to ≤ length bytes.now }
    requires many_le_most_values { many ≤ most_values }
    ensures { Repeated bytes.now from to tag (take many vars.now) reversed result }
{
    if tag == fields::REVERSE {
        return Ok(Repeats {
            start: 0,
            total: 1,
            body: from,
        });
    }
    let bounds = indexes::bounds_of(bytes, from, to, vars, many)?;
    Ok(Repeats {
        start: first_value(reversed, bounds.low, bounds.high),
        total: tally(bounds.low, bounds.high),
        body: bounds.next,
    })
}

// The loop variable in the round i, of a loop whose first value is `start`.
pub fn turn(reversed: bool, start: i64, i: usize) -> i32
    requires { (in_range start ≡ true) × (in_range (turn_of reversed start i) ≡ true) }
    ensures { result ≡ turn_of reversed start i }
{
    let k = i as i64;
    if reversed {
        let z = start - k;
        return z as i32;
    }
    let z = start + k;
    z as i32
}

// Whether the statement with this tag and the content from `from` to `to` is a call that names nothing.
fn nameless(bytes: &[u8], from: usize, to: usize, tag: u8) -> bool
    requires { (from ≤ to) × (to ≤ length bytes.now) }
    ensures { result ≡ nameless_of tag (slice from to bytes.now) }
{
    fields::is_call(tag) && fields::called_number(bytes, from, to, tag).is_err()
}

// Enters the statement with this tag and the content from `from` to `to`: takes its step, unless it has no meaning or none is left.
pub fn enter(
    bytes: &[u8],
    from: usize,
    to: usize,
    tag: u8,
    place: usize,
    mode: Mode,
    st: State,
) -> Result<State, Stop>
    requires from_le_to { (from ≤ to) × (to ≤ length bytes.now) }
    requires place_le_longest_program { place ≤ longest_program }
    ensures { Entered mode tag (slice from to bytes.now) place st result }
{
    if mode.levels == 0 || tag < fields::H || fields::PARAMETER_CALL < tag {
        return Err(Stop::Stuck);
    }
    if nameless(bytes, from, to, tag) {
        return Err(Stop::Stuck);
    }
    records::take_step(mode.limit, place, st)
}

// A level deeper, with so many values in scope, in a direction.
fn deeper(mode: Mode, variables: u8, reversed: bool) -> Mode
    requires { 0 < mode.levels }
    ensures { result ≡ deeper_of mode variables reversed }
{
    Mode {
        levels: mode.levels - 1,
        variables,
        reversed,
        ..mode
    }
}

// What stays in the body of the reverse or the for with this tag.
pub fn inner(mode: Mode, tag: u8) -> Mode
    requires { (0 < mode.levels) × (mode.variables < most_values) }
    ensures { result ≡ inner_of mode tag }
{
    if tag == fields::REVERSE {
        return deeper(mode, mode.variables, !mode.reversed);
    }
    deeper(mode, mode.variables + 1, mode.reversed)
}

// What stays in the body of family n, which has so many values.
pub fn entered(mode: Mode, n: u16, variables: u8) -> Mode
    ensures { result ≡ entered_of mode n variables }
{
    Mode {
        families_visible: n,
        levels: LEVELS,
        variables,
        ..mode
    }
}
