// A call's arguments, and the family that it names.
#![tactic(auto)]

ghost use Rattle.std.specs.Prelude.{◌≡◌, [], ◌∷◌, ◌++◌, ◌+◌, ◌*◌, ◌<◌, ◌≤◌, length, get_or, set, take, true};
ghost use Rattle.std.proofs.Math.Seq.{slice};
ghost use Rattle.language.specs.Form.{in_range};
ghost use Rattle.language.specs.Limits.{most_variables, most_parameters};
ghost use Rattle.language.specs.Read.{is_index_tag, is_operand_tag};
ghost use Rattle.fields.specs.Table.{past_of};
ghost use Rattle.indexes.specs.Values.{most_values};
ghost use Rattle.kinds.specs.Numbers.{kind_with};
ghost use Rattle.operands.specs.Meanings.{operands_of, of_parameter};
ghost use Rattle.calls.specs.Families.{FamilyHead, PastFields, BodyFrom};
ghost use Rattle.calls.specs.Arguments.{operand_numbers, gathered_operand, gathered_operands, operand_arguments, SizesAre, GathersMore, OperandsGathered, Takes, TypesTake, FamilyTakes, Scopes, Arguments};

use indexes::{Fault, VALUES};
use kinds::Kind;
use limits::{DEEPEST, MOST_PARAMETERS, MOST_VARIABLES};
use operands::{Meaning, Operand, Parameter, REGISTER_NUMBERS, Scope, Wire};

// A call's operands are gathered with three numbers for each.
pub const OPERAND_NUMBERS: usize = 3 * MOST_PARAMETERS;

// More operands than any family takes.
const TOO_MANY: usize = MOST_PARAMETERS + 1;

// The position past the field at `at`.
pub fn past(program: &[u8], at: usize) -> usize
    requires { at + 3 ≤ length program.now }
    ensures { result ≡ past_of program.now at }
{
    at + 3 + fields::two_bytes(program, at + 1)
}

// The position past the first k fields from `from` on, or the end where there are fewer.
fn past_fields(bytes: &[u8], from: usize, to: usize, k: usize) -> usize
    requires { (from ≤ to) × (to ≤ length bytes.now) }
    ensures { PastFields k bytes.now from to result }
{
    let mut at = from;
    for _ in 0..k {
        let Ok(header) = fields::header_at(bytes, at, to) else {
            return to;
        };
        at = header.next;
    }
    at
}

// Where the body of the family whose field is at `at` begins.
pub fn body_start(program: &[u8], at: usize) -> usize
    requires { FamilyHead program.now at }
    ensures { BodyFrom program.now at result }
{
    let to = past(program, at);
    let from = at + 5;
    let many = usize::from(program[at + 4]);
    past_fields(program, from, to, many)
}

// The body of the family whose field is at `at`: the rest of its field from `start` on, after the types.
pub fn body_of<'a>(program: &'a [u8], at: usize, start: usize) -> &'a [u8]
    requires family_head { FamilyHead program.now at }
    requires body_from { BodyFrom program.now at start }
    ensures { result.now ≡ slice start (past_of program.now at) program.now }
{
    let to = past(program, at);
    &program[start..to]
}

// Whether a field with this tag is an index.
fn is_index(tag: u8) -> bool
    ensures { result ≡ is_index_tag tag }
{
    fields::LITERAL <= tag && tag <= fields::PRODUCT
}

// Whether a field with this tag is an operand.
fn is_operand(tag: u8) -> bool
    ensures { result ≡ is_operand_tag tag }
{
    fields::WHOLE <= tag && tag <= fields::PASSED
}

// Stores a size if it is one of the first that a family can have.
fn store_size(sizes: &mut [i32; VALUES], k: usize, z: i64)
    requires { in_range z ≡ true }
    ensures { (k < most_variables → sizes.new ≡ set sizes.old k z) × (length sizes.old ≡ most_values) }
{
    if k < MOST_VARIABLES {
        sizes[k] = z as i32;
    }
}

// The sizes among the arguments from `from` to `to`: how many. The first that a family can have are stored.
fn sizes_of(
    bytes: &[u8],
    from: usize,
    to: usize,
    vars: &[i32; VALUES],
    many: usize,
    sizes: &mut [i32; VALUES],
) -> Result<usize, Fault>
    requires to_in_bounds { to ≤ length bytes.now }
    requires many_le_most_values { many ≤ most_values }
    ensures { SizesAre (slice from to bytes.now) (take many vars.now) sizes.new result }
{
    let mut at = from;
    let mut k: usize = 0;
    while at < to {
        let header = fields::header_at(bytes, at, to)?;
        let content = at + 3;
        at = header.next;
        if is_operand(header.tag) {
            continue;
        }
        let z = indexes::evaluate(bytes, content, at, header.tag, vars, many, DEEPEST)?;
        store_size(sizes, k, z);
        k += 1;
    }
    Ok(k)
}

// Puts an operand of a kind behind the n that are gathered, with its first wire and its size, or with its number.
fn put(given: &mut [u16; OPERAND_NUMBERS], n: usize, kind: Kind, first: u16, size: u16)
    requires { n < most_parameters }
    ensures { gathered_operands (take (3 * (n + 1)) given.new) ≡ gathered_operands (take (3 * n) given.old) ++ (gathered_operand kind first size ∷ []) }
{
    let at = 3 * n;
    let second = at + 1;
    let third = at + 2;
    given[at] = u16::from(kind);
    given[second] = first;
    given[third] = size;
}

// Gathers one operand behind n, and says how many there are. No family takes a classical one, or more than it can have
// parameters: then the answer is TOO_MANY.
fn gather(given: &mut [u16; OPERAND_NUMBERS], n: usize, s: Meaning) -> usize
    ensures { GathersMore given.old n s given.new result }
{
    if MOST_PARAMETERS <= n {
        return TOO_MANY;
    }
    let more = n + 1;
    match s {
        Meaning::Wire(w) => {
            put(given, n, Kind::Qubit, w.0, 0);
            more
        }
        Meaning::Wires(first, size) => {
            put(given, n, Kind::Quantum, first.0, size);
            more
        }
        Meaning::Family(number) => {
            put(given, n, Kind::Family, number, 0);
            more
        }
        _ => TOO_MANY,
    }
}

// The operands among the arguments from `from` to `to`, gathered as numbers: how many.
fn operands_of(
    bytes: &[u8],
    from: usize,
    to: usize,
    vars: &[i32; VALUES],
    many: usize,
    scope: Scope,
    regs: &[u16; REGISTER_NUMBERS],
    given: &mut [u16; OPERAND_NUMBERS],
) -> Result<usize, Fault>
    requires to_in_bounds { to ≤ length bytes.now }
    requires many_le_most_values { many ≤ most_values }
    ensures { OperandsGathered (operand_arguments (slice from to bytes.now) (take many vars.now) (operands_of scope regs.now)) given.new result }
{
    let mut at = from;
    let mut n: usize = 0;
    while at < to {
        let header = fields::header_at(bytes, at, to)?;
        let content = at + 3;
        at = header.next;
        if is_index(header.tag) {
            continue;
        }
        let s = operands::meaning_of(bytes, content, at, header.tag, vars, many, scope, regs)?;
        n = gather(given, n, s);
    }
    Ok(n)
}

// Whether a parameter of the type with this tag takes an operand of a kind. None that is gathered is classical.
fn takes(tag: u8, kind: Kind) -> bool
    ensures { Takes tag kind result }
{
    match kind {
        Kind::Quantum => tag == fields::QBITS,
        Kind::Family => tag == fields::FAMILY_TYPE,
        _ => tag == fields::QBIT,
    }
}

// Where the fields after the n types from `from` on begin, if those take the first n operands gathered.
fn types_take(
    bytes: &[u8],
    from: usize,
    to: usize,
    n: usize,
    given: &[u16; OPERAND_NUMBERS],
) -> Option<usize>
    requires from_le_to { (from ≤ to) × (to ≤ length bytes.now) }
    requires n_le_most_parameters { n ≤ most_parameters }
    ensures { TypesTake bytes.now from to n given.now result }
{
    let mut at = from;
    for i in 0..n {
        let Ok(header) = fields::header_at(bytes, at, to) else {
            return None;
        };
        let kind = Kind::from(given[3 * i]);
        if !takes(header.tag, kind) {
            return None;
        }
        at = header.next;
    }
    Some(at)
}

// Where the body of the family whose field is at `at` begins, if it takes k sizes and the first n operands gathered.
fn family_takes(
    program: &[u8],
    at: usize,
    k: usize,
    n: usize,
    given: &[u16; OPERAND_NUMBERS],
) -> Option<usize>
    requires { FamilyHead program.now at }
    ensures { FamilyTakes program.now at k n given.now result }
{
    if k != usize::from(program[at + 3]) {
        return None;
    }
    if n != usize::from(program[at + 4]) {
        return None;
    }
    let to = past(program, at);
    let from = at + 5;
    types_take(program, from, to, n, given)
}

// The parameter whose three numbers begin at i.
fn parameter(given: &[u16; OPERAND_NUMBERS], i: usize) -> Parameter
    requires { i + 2 < operand_numbers }
    ensures { of_parameter result ≡ gathered_operand (kind_with (get_or given.now i 0)) (get_or given.now (i + 1) 0) (get_or given.now (i + 2) 0) }
{
    let second = i + 1;
    let third = i + 2;
    let number = given[second];
    let first = Wire(number);
    match Kind::from(given[i]) {
        Kind::Quantum => {
            let size = given[third];
            Parameter {
                operand: Operand::Register { first, size },
            }
        }
        Kind::Family => Parameter {
            operand: Operand::Family(number),
        },
        _ => Parameter {
            operand: Operand::Single(first),
        },
    }
}

// The scope of the first `count` operands gathered.
pub fn scope_of(given: &[u16; OPERAND_NUMBERS], count: u8) -> Scope
    ensures { Scopes given.now count result }
{
    // no loop, which would keep the array a second time in the frame of each call that is open
    let a = parameter(given, 0);
    let b = parameter(given, 3);
    let c = parameter(given, 6);
    let d = parameter(given, 9);
    let e = parameter(given, 12);
    let f = parameter(given, 15);
    let g = parameter(given, 18);
    let h = parameter(given, 21);
    let params = [a, b, c, d, e, f, g, h];
    Scope {
        params,
        count,
        top: false,
    }
}

// A call whose arguments are all taken: how many operands, and where the family's body begins.
#[derive(Clone, Copy, Debug, PartialEq, Eq)]
pub struct Taken {
    pub count: u8,
    pub start: usize,
}

// The arguments from `from` to `to` of a call to the family whose field is at `at`: the sizes, and the operands gathered as
// numbers.
// A frame of its own, which is gone while the family's body runs.
#[inline(never)]
pub fn arguments(
    bytes: &[u8],
    from: usize,
    to: usize,
    program: &[u8],
    at: usize,
    vars: &[i32; VALUES],
    many: usize,
    scope: Scope,
    regs: &[u16; REGISTER_NUMBERS],
    sizes: &mut [i32; VALUES],
    given: &mut [u16; OPERAND_NUMBERS],
) -> Result<Taken, Fault>
    requires to_in_bounds { to ≤ length bytes.now }
    requires many_le_most_values { many ≤ most_values }
    requires family_head { FamilyHead program.now at }
    ensures { Arguments (slice from to bytes.now) program.now at (take many vars.now) (operands_of scope regs.now) sizes.new given.new result }
{
    let k = sizes_of(bytes, from, to, vars, many, sizes)?;
    let n = operands_of(bytes, from, to, vars, many, scope, regs, given)?;
    let Some(start) = family_takes(program, at, k, n, given) else {
        return Err(Fault::Stuck);
    };
    Ok(Taken {
        count: n as u8,
        start,
    })
}
