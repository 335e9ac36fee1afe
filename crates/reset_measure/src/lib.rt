// What stands at the top only: reset and measure.
#![tactic(auto)]

ghost use Rattle.std.specs.Prelude.{◌≤◌, length, take};
ghost use Rattle.std.proofs.Math.Seq.{slice};
ghost use Rattle.language.specs.Limits.{longest_program};
ghost use Rattle.indexes.specs.Values.{most_values};
ghost use Rattle.records.specs.Outcomes.{Does};
ghost use Rattle.gates.specs.Gates.{frame_in};
ghost use Rattle.reset_measure.specs.Tops.{reset_at, measure_at};

use gates::Mode;
use indexes::VALUES;
use operands::{REGISTER_NUMBERS, Scope};
use records::{Op, State, Stop};

// Writes the reset whose content is from `from` to `to` and whose step is taken.
pub fn reset(
    bytes: &[u8],
    from: usize,
    to: usize,
    place: usize,
    vars: &[i32; VALUES],
    scope: Scope,
    regs: &[u16; REGISTER_NUMBERS],
    mode: Mode,
    st: State,
    out: &mut [u8],
) -> Result<State, Stop>
    requires to_in_bounds { to ≤ length bytes.now }
    requires variables_le_most_values { (mode.variables ≤ most_values) × (place ≤ longest_program) }
    ensures { Does out.old st out.new result (reset_at mode (length out.old) place (slice from to bytes.now) (frame_in mode (take mode.variables vars.now) scope regs.now)) }
{
    let many = usize::from(mode.variables);
    let stopped = |fault| gates::stop(fault, place, st);
    let w = operands::wire_at(bytes, from, to, vars, many, scope, regs).map_err(stopped)?;
    records::write_record(
        out,
        st,
        place,
        Op::Reset.number(),
        w.0,
        0,
        0,
        mode.condition,
    )
}

// Writes the measure whose content is from `from` to `to` and whose step is taken.
pub fn measure(
    bytes: &[u8],
    from: usize,
    to: usize,
    place: usize,
    vars: &[i32; VALUES],
    scope: Scope,
    regs: &[u16; REGISTER_NUMBERS],
    mode: Mode,
    st: State,
    out: &mut [u8],
) -> Result<State, Stop>
    requires to_in_bounds { to ≤ length bytes.now }
    requires variables_le_most_values { (mode.variables ≤ most_values) × (place ≤ longest_program) }
    ensures { Does out.old st out.new result (measure_at mode (length out.old) place (slice from to bytes.now) (frame_in mode (take mode.variables vars.now) scope regs.now)) }
{
    let many = usize::from(mode.variables);
    let stopped = |fault| gates::stop(fault, place, st);
    let Ok(header) = fields::header_at(bytes, from, to) else {
        return Err(Stop::Stuck);
    };
    let x = operands::wire_at(bytes, from, to, vars, many, scope, regs).map_err(stopped)?;
    let y = operands::bit_at(bytes, header.next, to, vars, many, scope, regs).map_err(stopped)?;
    records::write_record(
        out,
        st,
        place,
        Op::Measure.number(),
        x.0,
        y.0,
        0,
        mode.condition,
    )
}
