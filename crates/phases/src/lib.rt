// What gates and phases write: their k, their op, and their records.
#![tactic(auto)]

ghost use Rattle.std.specs.Prelude.{◌≡◌, ◌≤◌, length, take};
ghost use Rattle.std.proofs.Math.Seq.{slice};
ghost use Rattle.language.specs.Limits.{longest_program};
ghost use Rattle.indexes.specs.Values.{most_values};
ghost use Rattle.records.specs.Outcomes.{op_number, Does};
ghost use Rattle.gates.specs.Gates.{frame_in};
ghost use Rattle.phases.specs.Phases.{Halved, phase_op, cphase_op, PartsOf, is_action_tag, action_at};

use gates::Mode;
use indexes::{Fault, VALUES};
use operands::{REGISTER_NUMBERS, Scope};
use records::{Op, State, Stop};

// A phase's k, and where its operands begin.
#[derive(Clone, Copy, Debug, PartialEq, Eq)]
pub struct Halvings {
    pub k: usize,
    pub next: usize,
}

// The k of the phase whose content is from `from` to `to`.
fn halvings_of(
    bytes: &[u8],
    from: usize,
    to: usize,
    vars: &[i32; VALUES],
    many: usize,
) -> Result<Halvings, Fault>
    requires to_in_bounds { to ≤ length bytes.now }
    requires many_le_most_values { many ≤ most_values }
    ensures { Halved bytes.now from to (take many vars.now) result }
{
    let z = indexes::index_at(bytes, from, to, vars, many)?;
    if z < 0 {
        return Err(Fault::Stuck);
    }
    let header = fields::header_at(bytes, from, to)?;
    Ok(Halvings {
        k: z as usize,
        next: header.next,
    })
}

// The op of a phase in a direction.
fn phase_op(reversed: bool) -> Op
    ensures { op_number result ≡ phase_op reversed }
{
    if reversed {
        Op::PhaseInverse
    } else {
        Op::Phase
    }
}

// The op of a cphase in a direction.
fn cphase_op(reversed: bool) -> Op
    ensures { op_number result ≡ cphase_op reversed }
{
    if reversed {
        Op::CphaseInverse
    } else {
        Op::Cphase
    }
}

// What a gate or a phase writes, and on what: whether on a single wire, its op, its k, or 0 for it, and where its operands begin.
#[derive(Clone, Copy, Debug, PartialEq, Eq)]
pub struct Parts {
    pub single: bool,
    pub op: Op,
    pub k: usize,
    pub next: usize,
}

// The parts of the gate or the phase with this tag, whose content is from `from` to `to`.
fn parts_of(
    bytes: &[u8],
    from: usize,
    to: usize,
    tag: u8,
    vars: &[i32; VALUES],
    many: usize,
    reversed: bool,
) -> Result<Parts, Fault>
    requires to_in_bounds { to ≤ length bytes.now }
    requires many_le_most_values { many ≤ most_values }
    ensures { PartsOf tag bytes.now from to (take many vars.now) reversed result }
{
    if tag == fields::CX {
        return Ok(Parts {
            single: false,
            op: Op::Cx,
            k: 0,
            next: from,
        });
    }
    if tag < fields::CALL {
        return Ok(Parts {
            single: true,
            op: gates::code(tag, reversed),
            k: 0,
            next: from,
        });
    }
    let Halvings { k, next } = halvings_of(bytes, from, to, vars, many)?;
    if tag == fields::PHASE {
        return Ok(Parts {
            single: true,
            op: phase_op(reversed),
            k,
            next,
        });
    }
    Ok(Parts {
        single: false,
        op: cphase_op(reversed),
        k,
        next,
    })
}

// Whether a statement's tag is that of a gate or a phase, which hold no statements and call none.
pub fn is_action(tag: u8) -> bool
    ensures { result ≡ is_action_tag tag }
{
    tag < fields::CALL || matches!(tag, fields::PHASE | fields::CPHASE)
}

// Writes the gate or the phase with this tag, whose content is from `from` to `to` and whose step is taken.
pub fn act(
    bytes: &[u8],
    from: usize,
    to: usize,
    tag: u8,
    place: usize,
    vars: &[i32; VALUES],
    scope: Scope,
    regs: &[u16; REGISTER_NUMBERS],
    mode: Mode,
    st: State,
    out: &mut [u8],
) -> Result<State, Stop>
    requires to_in_bounds { to ≤ length bytes.now }
    requires variables_le_most_values { (mode.variables ≤ most_values) × (place ≤ longest_program) }
    ensures { Does out.old st out.new result (action_at mode (length out.old) tag place (slice from to bytes.now) (frame_in mode (take mode.variables vars.now) scope regs.now)) }
{
    let many = usize::from(mode.variables);
    let stopped = |fault| gates::stop(fault, place, st);
    let parts = parts_of(bytes, from, to, tag, vars, many, mode.reversed).map_err(stopped)?;
    gates::on_wires(
        bytes,
        parts.next,
        to,
        parts.single,
        parts.op.number(),
        parts.k,
        place,
        vars,
        scope,
        regs,
        mode,
        st,
        out,
    )
}
