// What operands stand for.
#![tactic(auto)]

ghost use Rattle.std.specs.Prelude.{◌≡◌, true, ◌+◌, ◌*◌, ◌<◌, ◌≤◌, length, take, [], ◌∷◌, ◌++◌, map};
ghost use Rattle.std.proofs.Math.Seq.{slice};
ghost use Rattle.language.specs.Form.{in_range};
ghost use Rattle.language.specs.Limits.{most_registers, most_parameters};
ghost use Rattle.indexes.specs.Values.{most_values};
ghost use Rattle.operands.specs.Meanings.{register_numbers, of_parameter, register_of, registers_of, clipped, operands_of, OperandIs, location_in, location_of, ElementIs, RunIs, SliceIs, PassedMeans, FieldMeans, AsWire, WireAt, AsBit, BitAt, FamilyOf};

use indexes::{Fault, VALUES};
use kinds::Kind;
use limits::{MOST_PARAMETERS, MOST_REGISTERS};

// A table of registers has three numbers for each.
pub const REGISTER_NUMBERS: usize = 3 * MOST_REGISTERS;

// Past the last location that a register can have; the first location of an empty slice may lie there.
const LOCATIONS: usize = 65_535;

// A quantum location.
#[derive(Clone, Copy, Debug, PartialEq, Eq)]
pub struct Wire(pub u16);

// A classical location.
#[derive(Clone, Copy, Debug, PartialEq, Eq)]
pub struct Bit(pub u16);

// What a parameter stands for: one wire, a register or a run of its wires, with the first wire and the size, or the family with a
// number.
#[derive(Clone, Copy, Debug, PartialEq, Eq)]
pub enum Operand {
    Single(Wire),
    Register { first: Wire, size: u16 },
    Family(u16),
}

#[derive(Clone, Copy, Debug, PartialEq, Eq)]
pub struct Parameter {
    pub operand: Operand,
}

// The operands in scope: the first `count` of a family's parameters, or at the top of the registers of a table.
#[derive(Clone, Copy)]
pub struct Scope {
    pub params: [Parameter; MOST_PARAMETERS],
    pub count: u8,
    pub top: bool,
}

// What an operand stands for: a location, or locations from a first one on, with their number, or the family with a number.
#[derive(Clone, Copy, Debug, PartialEq, Eq)]
pub enum Meaning {
    Wire(Wire),
    Bit(Bit),
    Wires(Wire, u16),
    Bits(Bit, u16),
    Family(u16),
}

// The register n of the first `count` in a table that has three numbers for each: its kind's, its first location, its size.
fn register(regs: &[u16; REGISTER_NUMBERS], count: u8, n: usize) -> Result<Meaning, Fault>
    ensures { OperandIs (registers_of (take (3 * count) regs.now)) n result }
{
    if usize::from(count) <= n {
        return Err(Fault::Stuck);
    }
    let at = 3 * n;
    let first = regs[at + 1];
    let size = regs[at + 2];
    match Kind::from(regs[at]) {
        Kind::Classical => Ok(Meaning::Bits(Bit(first), size)),
        _ => Ok(Meaning::Wires(Wire(first), size)),
    }
}

// Puts a register of a kind into the table, behind the `count` that it has, with its first location and its size.
pub fn declare(regs: &mut [u16; REGISTER_NUMBERS], count: usize, kind: Kind, first: u16, size: u16)
    requires { count < most_registers }
    ensures { registers_of (take (3 * (count + 1)) regs.new) ≡ registers_of (take (3 * count) regs.old) ++ (register_of kind first size ∷ []) }
{
    let at = 3 * count;
    regs[at] = u16::from(kind);
    regs[at + 1] = first;
    regs[at + 2] = size;
}

// What fills a scope's places for parameters that it does not have.
pub fn no_parameter() -> Parameter {
    Parameter {
        operand: Operand::Single(Wire(0)),
    }
}

// What the parameter n stands for.
fn parameter_meaning(scope: Scope, n: usize) -> Result<Meaning, Fault>
    ensures { OperandIs (map of_parameter (take scope.count scope.params)) n result }
{
    if usize::from(scope.count) <= n || MOST_PARAMETERS <= n {
        return Err(Fault::Stuck);
    }
    match scope.params[n].operand {
        Operand::Single(w) => Ok(Meaning::Wire(w)),
        Operand::Register { first, size } => Ok(Meaning::Wires(first, size)),
        Operand::Family(number) => Ok(Meaning::Family(number)),
    }
}

// What the operand number n stands for.
fn operand_meaning(scope: Scope, regs: &[u16; REGISTER_NUMBERS], n: usize) -> Result<Meaning, Fault>
    ensures { OperandIs (operands_of scope regs.now) n result }
{
    if scope.top {
        return register(regs, scope.count, n);
    }
    parameter_meaning(scope, n)
}

// The location i of a register.
fn locate(first: u16, size: u16, i: usize) -> Option<u16>
    ensures { result ≡ location_in first size i }
{
    if usize::from(size) <= i {
        return None;
    }
    let n = usize::from(first) + i;
    if LOCATIONS <= n {
        return None;
    }
    Some(n as u16)
}

// The location that an index names in a register.
fn indexed(first: u16, size: u16, z: i64) -> Option<u16>
    requires { in_range z ≡ true }
    ensures { result ≡ location_of first size z }
{
    if z < 0 {
        return None;
    }
    locate(first, size, z as usize)
}

// What an element stands for.
// Copied, as `meaning_of` is.
#[inline(always)]
fn element(s: Meaning, z: i64) -> Result<Meaning, Fault>
    requires { in_range z ≡ true }
    ensures { ElementIs s z result }
{
    match s {
        Meaning::Wires(first, size) => {
            let n = indexed(first.0, size, z).ok_or(Fault::Stuck)?;
            Ok(Meaning::Wire(Wire(n)))
        }
        Meaning::Bits(first, size) => {
            let n = indexed(first.0, size, z).ok_or(Fault::Stuck)?;
            Ok(Meaning::Bit(Bit(n)))
        }
        _ => Err(Fault::Stuck),
    }
}

// How many locations a register has, which is no more than its first one leaves.
pub fn room_of(first: u16, size: u16) -> usize
    ensures { result ≡ clipped first size }
{
    let most = LOCATIONS - usize::from(first);
    usize::from(size).min(most)
}

// The run of wires from x to y in a register.
fn run_of(first: Wire, size: u16, x: i64, y: i64) -> Result<Meaning, Fault>
    requires { (in_range x ≡ true) × (in_range y ≡ true) }
    ensures { RunIs first size x y result }
{
    if x < 0 {
        return Err(Fault::Stuck);
    }
    let past = y + 1;
    if past < x {
        return Err(Fault::Stuck);
    }
    let from = x as usize;
    let to = past as usize;
    if room_of(first.0, size) < to {
        return Err(Fault::Stuck);
    }
    let at = usize::from(first.0) + from;
    let many = to - from;
    Ok(Meaning::Wires(Wire(at as u16), many as u16))
}

// What a slice from x to y stands for.
fn sliced(s: Meaning, x: i64, y: i64) -> Result<Meaning, Fault>
    requires { (in_range x ≡ true) × (in_range y ≡ true) }
    ensures { SliceIs s x y result }
{
    match s {
        Meaning::Wires(first, size) => run_of(first, size, x, y),
        _ => Err(Fault::Stuck),
    }
}

// What the passed family with the content from `from` to `to` stands for.
fn passed(bytes: &[u8], from: usize, to: usize) -> Result<Meaning, Fault>
    requires { (from ≤ to) × (to ≤ length bytes.now) }
    ensures { PassedMeans (slice from to bytes.now) result }
{
    if to - from < 2 {
        return Err(Fault::Stuck);
    }
    let number = fields::two_bytes(bytes, from);
    Ok(Meaning::Family(number as u16))
}

// What the operand with this tag, whose content is from `from` to `to`, stands for.
// Copied into each place, so that an answer is taken apart where it is made.
#[inline(always)]
pub fn meaning_of(
    bytes: &[u8],
    from: usize,
    to: usize,
    tag: u8,
    vars: &[i32; VALUES],
    many: usize,
    scope: Scope,
    regs: &[u16; REGISTER_NUMBERS],
) -> Result<Meaning, Fault>
    requires from_le_to { (from ≤ to) × (to ≤ length bytes.now) }
    requires many_le_most_values { many ≤ most_values }
    ensures { FieldMeans tag (slice from to bytes.now) (take many vars.now) (operands_of scope regs.now) result }
{
    if from == to {
        return Err(Fault::Stuck);
    }
    if tag == fields::PASSED {
        return passed(bytes, from, to);
    }
    let s = operand_meaning(scope, regs, usize::from(bytes[from]))?;
    let at = from + 1;
    match tag {
        fields::WHOLE => Ok(s),
        fields::ELEMENT => {
            let z = indexes::index_at(bytes, at, to, vars, many)?;
            element(s, z)
        }
        fields::SLICE => {
            let bounds = indexes::bounds_of(bytes, at, to, vars, many)?;
            sliced(s, bounds.low, bounds.high)
        }
        _ => Err(Fault::Stuck),
    }
}

// The wire that an operand stands for.
#[tactic(auto, using(crate::proofs::Meanings::no_wire), unfolding(crate::specs::Meanings::wire_told, crate::specs::Meanings::stood, indexes::specs::Values::fault_told, language::specs::Machine::as_wire))]
fn as_wire(s: Meaning) -> Result<Wire, Fault>
    ensures { AsWire s result }
{
    match s {
        Meaning::Wire(w) => Ok(w),
        _ => Err(Fault::Stuck),
    }
}

// The wire of the operand due at `at` in the bytes up to `to`.
pub fn wire_at(
    bytes: &[u8],
    at: usize,
    to: usize,
    vars: &[i32; VALUES],
    many: usize,
    scope: Scope,
    regs: &[u16; REGISTER_NUMBERS],
) -> Result<Wire, Fault>
    requires to_in_bounds { to ≤ length bytes.now }
    requires many_le_most_values { many ≤ most_values }
    ensures { WireAt (slice at to bytes.now) 0 (take many vars.now) (operands_of scope regs.now) result }
{
    let header = fields::header_at(bytes, at, to)?;
    let from = at + 3;
    // a whole operand is read in place, and the scope is not copied
    if header.tag == fields::WHOLE && from < header.next {
        return as_wire(operand_meaning(scope, regs, usize::from(bytes[from]))?);
    }
    as_wire(meaning_of(
        bytes,
        from,
        header.next,
        header.tag,
        vars,
        many,
        scope,
        regs,
    )?)
}

// The bit that an operand stands for.
#[tactic(auto, using(crate::proofs::Meanings::no_bit), unfolding(crate::specs::Meanings::bit_told, crate::specs::Meanings::stood, indexes::specs::Values::fault_told, language::specs::Machine::as_bit))]
fn as_bit(s: Meaning) -> Result<Bit, Fault>
    ensures { AsBit s result }
{
    match s {
        Meaning::Bit(b) => Ok(b),
        _ => Err(Fault::Stuck),
    }
}

// The bit of the operand due at `at` in the bytes up to `to`.
pub fn bit_at(
    bytes: &[u8],
    at: usize,
    to: usize,
    vars: &[i32; VALUES],
    many: usize,
    scope: Scope,
    regs: &[u16; REGISTER_NUMBERS],
) -> Result<Bit, Fault>
    requires to_in_bounds { to ≤ length bytes.now }
    requires many_le_most_values { many ≤ most_values }
    ensures { BitAt (slice at to bytes.now) 0 (take many vars.now) (operands_of scope regs.now) result }
{
    let header = fields::header_at(bytes, at, to)?;
    as_bit(meaning_of(
        bytes,
        at + 3,
        header.next,
        header.tag,
        vars,
        many,
        scope,
        regs,
    )?)
}

// The family that the operand number n stands for.
pub fn family_of(scope: Scope, regs: &[u16; REGISTER_NUMBERS], n: usize) -> Option<u16>
    ensures { FamilyOf (operands_of scope regs.now) n result }
{
    match operand_meaning(scope, regs, n).ok()? {
        Meaning::Family(number) => Some(number),
        _ => None,
    }
}
