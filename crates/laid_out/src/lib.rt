// The numbers laid out: the qubits and bits that a program declares, and the wires of an instance.
#![tactic(auto)]

ghost use Rattle.std.specs.Prelude.{◌≡◌, [], ◌∷◌, map, ◌≤◌, length, take, Ok};
ghost use Rattle.std.proofs.Math.Seq.{slice};
ghost use Rattle.language.specs.Limits.{longest_program, most_parameters};
ghost use Rattle.language.specs.Machine.{begin};
ghost use Rattle.language.specs.Read.{register_size};
ghost use Rattle.language.specs.Sound.{wires_in, wires_laid};
ghost use Rattle.operands.specs.Meanings.{locations, parameter_of, of_parameter};
ghost use Rattle.layout.specs.Layout.{laid};
ghost use Rattle.calls.specs.Families.{FamilyHead};
ghost use Rattle.runs.specs.Whole.{Acceptable};
ghost use Rattle.laid_out.specs.Numbers.{size_said, Counts, WiresAt, WireCount};

use indexes::VALUES;
use limits::{MOST_FAMILIES, MOST_PARAMETERS};
use operands::{Operand, Parameter, Scope};

// All qubits and all bits that a program declares.
#[derive(Clone, Copy)]
pub struct Locations {
    pub qubits: usize,
    pub bits: usize,
}

// The size in a register's content, which is from `from` to `to`; 0 where it has none.
fn register_size(program: &[u8], from: usize, to: usize) -> usize
    requires { (from ≤ to) × (to ≤ length program.now) }
    ensures { (result ≡ size_said (register_size (slice from to program.now))) × (result ≤ locations) }
{
    if to - from < 2 {
        return 0;
    }
    fields::two_bytes(program, from)
}

// Adds up what the registers of a program declare.
pub fn declared(program: &[u8]) -> Locations
    requires { length program.now ≤ longest_program }
    ensures { Counts program.now result }
{
    let to = program.len();
    let mut at: usize = 0;
    let mut qubits: usize = 0;
    let mut bits: usize = 0;
    while let Ok(header) = fields::header_at(program, at, to) {
        let size = register_size(program, at + 3, header.next);
        at = header.next;
        match header.tag {
            fields::QREG => qubits += size,
            fields::CREG => bits += size,
            _ => {}
        }
    }
    Locations { qubits, bits }
}

// The wires of a parameter.
fn wires_of(operand: Operand) -> usize
    ensures { (result ≡ wires_in (parameter_of operand ∷ [])) × (result ≤ locations) }
{
    match operand {
        Operand::Single(_) => 1,
        Operand::Register { first, size } => operands::room_of(first.0, size),
        Operand::Family(_) => 0,
    }
}

// The wires of the first `count` parameters.
fn wires_in(params: [Parameter; MOST_PARAMETERS], count: usize) -> usize
    requires { count ≤ most_parameters }
    ensures { result ≡ wires_in (map of_parameter (take count params)) }
{
    let mut total: usize = 0;
    for i in 0..count {
        total += wires_of(params[i].operand);
    }
    total
}

// The wires of a layout.
fn wires_laid(scope: Scope) -> usize
    requires { scope.count ≤ most_parameters }
    ensures { result ≡ wires_laid (laid (Ok scope) begin) }
{
    wires_in(scope.params, usize::from(scope.count))
}

// The wires that the family whose field is at `at` lays out at these sizes, 0 where they do not fit it.
fn wires_at(program: &[u8], at: usize, sizes: &[u8]) -> usize
    requires { FamilyHead program.now at }
    ensures { WiresAt program.now at sizes.now result }
{
    let many = usize::from(program[at + 3]);
    let mut values = [0i32; VALUES];
    let Ok(()) = layout::read_sizes(sizes, many, &mut values) else {
        return 0;
    };
    let to = calls::past(program, at);
    let from = at + 5;
    let count = usize::from(program[at + 4]);
    match layout::lay_out(program, from, to, count, &values, many) {
        Ok(scope) => wires_laid(scope),
        Err(_) => 0,
    }
}

// The wires that an instance of a family of an accepted program lays out.
pub fn wires(program: &[u8], family: usize, sizes: &[u8]) -> usize
    requires { Acceptable program.now }
    ensures { WireCount program.now family sizes.now result }
{
    let mut table = [0u16; MOST_FAMILIES];
    let n = fields::families(program, &mut table);
    if n <= family {
        return 0;
    }
    wires_at(program, usize::from(table[family]), sizes)
}
