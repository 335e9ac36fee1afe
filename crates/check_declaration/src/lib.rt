// The check of what declares: parameters' types, a family's numbers, registers.
#![tactic(auto)]

ghost use Rattle.std.specs.Prelude.{◌≡◌, List, [], ℕ, ◌+◌, ◌≤◌, ◌<◌, length};
ghost use Rattle.std.proofs.Math.Seq.{slice};
ghost use Rattle.language.specs.Tree.{bad_type, plain};
ghost use Rattle.language.specs.Read.{due, qbits_of, read_plain, parts_of, read_family_type, read_type, types_of};
ghost use Rattle.language.specs.Check.{Kind, Signature, plain_kind, plain_kinds, kind_of, kinds_of};
ghost use Rattle.language.specs.Limits.{longest_program, most_registers, most_variables, furthest};
ghost use Rattle.fields.specs.Header.{fields_at};
ghost use Rattle.check_index.specs.Answers.{EndsAt, FormEndsAt, Passes, PassesCount};
ghost use Rattle.check_operand.specs.Tables.{Formals, scope_with};
ghost use Rattle.check_call.specs.Calls.{formal_at};
ghost use Rattle.check_declaration.specs.Registers.{checked_register, register_in, RegisterSet};
ghost use Rattle.check_declaration.specs.Types.{size_row, plain_row, most_rows, row_number, checked_sized_type, checked_type, TypePasses, OperandTable, InUse, InUseAfter, InUseBefore, Apart, checked_row, checked_rows, PlainAfter, TypesWithin, FormalsIn, FormalsAfter, FormalsBefore, FamilyTable, Stays};
ghost use Rattle.check_declaration.specs.Families.{checked_counts, counts_in, BothRight};

use check_call::FamilyRow;
use check_operand::KINDS;
use fields::NoHeader;
use forms::{FORM_NUMBERS, Form, Ranges, SIZE_NUMBERS, Size};
use limits::{DEEPEST, MOST_FAMILIES, MOST_PARAMETERS, MOST_REGISTERS, MOST_VARIABLES};
use refusals::{Reason, Refusal};

// A plain type, with the position past it: Qbit, or Qbit[I], whose form lies beside.
#[derive(Clone, Copy, Debug, PartialEq, Eq)]
pub enum PlainType {
    Single(usize),
    Many(usize),
}

// The numbers of index variables and of parameters of a family or a family type.
#[derive(Clone, Copy, Debug, PartialEq, Eq)]
pub struct Counts {
    pub variables: usize,
    pub parameters: usize,
}

// The content of the type Qbit[I] at `at`, in a family of m index variables; its size goes to f.
fn sized_type(
    program: &[u8],
    at: usize,
    next: usize,
    m: usize,
    f: &mut Form,
) -> Result<usize, Refusal>
    requires at_bound { (at + 3 ≤ next) × (next ≤ length program.now) }
    requires m_le_most_variables { m ≤ most_variables }
    ensures f_after { (fs : List Signature) (ks : List Kind) → checked_sized_type result f.new ≡ plain_kind (scope_with fs ks m []) (qbits_of at (fields_at program.now (at + 3) next)) }
    ensures form_ends_at { FormEndsAt next result f.new }
{
    let from = at + 3;
    let end = check_index::index(program, from, next, at, DEEPEST, m, f)?;
    if end < next {
        return Err(Refusal(Reason::BadContent, at));
    }
    let ranges = Ranges {
        variables: m,
        loops: 0,
        lows: &[],
        highs: &[],
    };
    check_operand::must_show(f, at, next, &ranges)?;
    Ok(next)
}

// The plain type that is due at `at` in the field at `parent` whose content ends at `to`, over m index variables; its size goes to f.
fn plain_type(
    program: &[u8],
    at: usize,
    to: usize,
    parent: usize,
    m: usize,
    f: &mut Form,
) -> Result<PlainType, Refusal>
    requires to_in_bounds { to ≤ length program.now }
    requires m_le_most_variables { m ≤ most_variables }
    ensures f_after { (fs : List Signature) (ks : List Kind) → checked_type result f.new ≡ plain_kind (scope_with fs ks m []) (due read_plain (bad_type 4 parent) (fields_at program.now at to)) }
    ensures type_passes { TypePasses program.now at to result f.new }
{
    match fields::header_at(program, at, to) {
        Err(NoHeader::End) => Err(Refusal(Reason::BadContent, parent)),
        Err(NoHeader::Cut) => Err(Refusal(Reason::BadHeader, at)),
        Ok(header) => {
            let next = header.next;
            let from = at + 3;
            match header.tag {
                fields::QBIT => {
                    if from < next {
                        return Err(Refusal(Reason::BadContent, at));
                    }
                    Ok(PlainType::Single(next))
                }
                fields::QBITS => {
                    sized_type(program, at, next, m, f)?;
                    Ok(PlainType::Many(next))
                }
                _ => Err(Refusal(Reason::BadTag, at)),
            }
        }
    }
}

// The row of the size that is declared at `at`, after so many registers. A register takes 5 bytes and a type with a size 7 at least, so that
// each has a row of its own; the row 0 is nobody's.
fn size_row(at: usize, registers: usize) -> usize
    requires at_le_longest_program { at ≤ longest_program }
    requires registers_le_most_registers { registers ≤ most_registers }
    ensures { result ≡ size_row at registers }
{
    1 + (at + 2 * registers) / 7
}

// The number in the table of operands for a kind whose size is in a row.
fn row_number(kind: kinds::Kind, row: usize) -> u16
    requires { row < 16384 }
    ensures { result ≡ row_number kind row }
{
    (row as u16) * KINDS + u16::from(kind)
}

// The plain type that is due at `at` in the field at `parent`, over m index variables, put into a row of the tables, after so many
// registers.
fn plain_row(
    program: &[u8],
    at: usize,
    to: usize,
    parent: usize,
    m: usize,
    row: usize,
    registers: usize,
    kinds: &mut [u16],
    sizes: &mut [Size],
) -> Result<usize, Refusal>
    requires to_in_bounds { to ≤ length program.now }
    requires m_le_most_variables { m ≤ most_variables }
    requires program_len_bound { length program.now ≤ longest_program }
    requires row_in_bounds { row < length kinds.old }
    requires in_use { InUse 0 registers at kinds.old }
    requires operand_table { OperandTable (length program.now) kinds.old sizes.old }
    ensures sizes_after { (fs : List Signature) (ks : List Kind) (formals : Formals) → checked_row formals result row kinds.new sizes.new ≡ plain_kind (scope_with fs ks m []) (due read_plain (bad_type 4 parent) (fields_at program.now at to)) }
    ensures passes { Passes program.now at to result }
    ensures in_use_after { InUseAfter 0 registers result kinds.new }
    ensures plain_after { PlainAfter result 1 row kinds.new }
    ensures apart { Apart (length program.now) row 1 kinds.old sizes.old kinds.new sizes.new }
{
    let mut f = [0i64; FORM_NUMBERS];
    match plain_type(program, at, to, parent, m, &mut f)? {
        PlainType::Single(next) => {
            kinds[row] = row_number(kinds::Kind::Qubit, 0);
            Ok(next)
        }
        PlainType::Many(next) => {
            let mut size = [0i32; SIZE_NUMBERS];
            forms::store(&mut size, &f);
            let own = size_row(at, registers);
            kinds[row] = row_number(kinds::Kind::Quantum, own);
            sizes[own] = size;
            Ok(next)
        }
    }
}

// The `count` plain types of the family type at `parent`, from `at` on, put into the rows from `first` on, after so many registers.
fn plain_rows(
    program: &[u8],
    at: usize,
    to: usize,
    parent: usize,
    m: usize,
    count: usize,
    first: usize,
    registers: usize,
    kinds: &mut [u16],
    sizes: &mut [Size],
) -> Result<usize, Refusal>
    requires to_in_bounds { to ≤ length program.now }
    requires m_le_most_variables { m ≤ most_variables }
    requires at_le_to { (at ≤ to) × (length program.now ≤ longest_program) }
    requires count_in_bounds { first + count ≤ length kinds.old }
    requires in_use { InUse 0 registers at kinds.old }
    requires operand_table { OperandTable (length program.now) kinds.old sizes.old }
    ensures sizes_after { (fs : List Signature) (ks : List Kind) (formals : Formals) → checked_rows formals result count first kinds.new sizes.new ≡ plain_kinds (scope_with fs ks m []) (parts_of read_plain (bad_type 4 parent) count (fields_at program.now at to)) }
    ensures passes_count { PassesCount program.now at to count result }
    ensures types_within { TypesWithin at to count result }
    ensures in_use_after { InUseAfter 0 registers result kinds.new }
    ensures plain_after { PlainAfter result count first kinds.new }
    ensures apart { Apart (length program.now) first count kinds.old sizes.old kinds.new sizes.new }
{
    let mut from = at;
    for j in 0..count {
        let row = first + j;
        from = plain_row(program, from, to, parent, m, row, registers, kinds, sizes)?;
    }
    Ok(from)
}

// The first row of the plain types of the family type at `at`, in a table of so many rows: its upper half is theirs. Each takes 3 bytes
// at least, so that each has a row of its own.
fn plain_from(rows: usize, at: usize) -> usize
    requires { (rows ≤ most_rows) × (at ≤ longest_program) }
    ensures { result ≡ plain_row rows at }
{
    rows / 2 + 1 + at / 3
}

// The family type at `at`, whose field ends at `next`, put into a row of the tables, after so many registers.
fn family_row(
    program: &[u8],
    at: usize,
    next: usize,
    row: usize,
    registers: usize,
    families: &mut [FamilyRow],
    kinds: &mut [u16],
    sizes: &mut [Size],
) -> Result<usize, Refusal>
    requires at_bound { (at + 3 ≤ next) × (next ≤ length program.now) }
    requires program_len_bound { (length program.now ≤ longest_program) × (length kinds.old ≤ most_rows) }
    requires in_use { InUse row registers at kinds.old }
    requires operand_table { OperandTable (length program.now) kinds.old sizes.old }
    requires family_table { FamilyTable families.old sizes.old }
    requires formals_in { FormalsIn at families.old kinds.old }
    ensures sizes_after { (fs : List Signature) (ks : List Kind) (m : ℕ) → checked_row (formal_at families.new kinds.new sizes.new) result row kinds.new sizes.new ≡ kind_of (scope_with fs ks m []) (read_family_type at (slice (at + 3) next program.now)) }
    ensures ends_at { EndsAt next result }
    ensures in_use_after { InUseAfter (row + 1) registers result kinds.new }
    ensures formals_after { FormalsAfter result families.new kinds.new }
    ensures stays { Stays (length program.now) row at registers families.old kinds.old sizes.old families.new kinds.new sizes.new }
{
    let counts = two_counts(program, at, next)?;
    let m = counts.variables;
    let count = counts.parameters;
    let from = at + 5;
    let first = plain_from(kinds.len(), at);
    let end = plain_rows(
        program, from, next, at, m, count, first, registers, kinds, sizes,
    )?;
    if end < next {
        return Err(Refusal(Reason::BadContent, at));
    }
    let own = size_row(at, registers);
    kinds[row] = row_number(kinds::Kind::Family, own);
    let entry = [m as u16, count as u16, first as u16];
    let formal = MOST_FAMILIES + own;
    families[formal] = entry;
    Ok(next)
}

// The type that is due at `at` in the family at `parent` of m index variables, put into a row of the tables, after so many registers.
fn typed_row(
    program: &[u8],
    at: usize,
    to: usize,
    parent: usize,
    m: usize,
    row: usize,
    registers: usize,
    families: &mut [FamilyRow],
    kinds: &mut [u16],
    sizes: &mut [Size],
) -> Result<usize, Refusal>
    requires at_le_to { (at ≤ to) × (to ≤ length program.now) }
    requires m_le_most_variables { m ≤ most_variables }
    requires program_len_bound { (length program.now ≤ longest_program) × (length kinds.old ≤ most_rows) }
    requires in_use { InUse row registers at kinds.old }
    requires operand_table { OperandTable (length program.now) kinds.old sizes.old }
    requires family_table { FamilyTable families.old sizes.old }
    requires formals_in { FormalsIn at families.old kinds.old }
    ensures sizes_after { (fs : List Signature) (ks : List Kind) → checked_row (formal_at families.new kinds.new sizes.new) result row kinds.new sizes.new ≡ kind_of (scope_with fs ks m []) (due read_type (plain (bad_type 4 parent)) (fields_at program.now at to)) }
    ensures passes { Passes program.now at to result }
    ensures in_use_after { InUseAfter (row + 1) registers result kinds.new }
    ensures formals_after { FormalsAfter result families.new kinds.new }
    ensures stays { Stays (length program.now) row at registers families.old kinds.old sizes.old families.new kinds.new sizes.new }
{
    if let Some(next) = fields::with_tag(program, at, to, fields::FAMILY_TYPE) {
        return family_row(program, at, next, row, registers, families, kinds, sizes);
    }
    plain_row(program, at, to, parent, m, row, registers, kinds, sizes)
}

// The types of the `count` parameters of the family at `parent`, from `at` on, put into the rows from `first` on, after so many registers.
pub fn parameter_types(
    program: &[u8],
    at: usize,
    to: usize,
    parent: usize,
    m: usize,
    count: usize,
    first: usize,
    registers: usize,
    families: &mut [FamilyRow],
    kinds: &mut [u16],
    sizes: &mut [Size],
) -> Result<usize, Refusal>
    requires to_in_bounds { to ≤ length program.now }
    requires m_le_most_variables { m ≤ most_variables }
    requires at_le_to { (at ≤ to) × (length program.now ≤ longest_program) × (length kinds.old ≤ most_rows) }
    requires in_use { InUse first registers at kinds.old }
    requires operand_table { OperandTable (length program.now) kinds.old sizes.old }
    requires family_table { FamilyTable families.old sizes.old }
    requires formals_in { FormalsIn at families.old kinds.old }
    ensures sizes_after { (fs : List Signature) (ks : List Kind) → checked_rows (formal_at families.new kinds.new sizes.new) result count first kinds.new sizes.new ≡ kinds_of (scope_with fs ks m []) (types_of parent count (fields_at program.now at to)) }
    ensures passes_count { PassesCount program.now at to count result }
    ensures in_use_before { InUseBefore (first + count) registers to result kinds.new }
    ensures formals_before { FormalsBefore to result families.new kinds.new }
    ensures stays { Stays (length program.now) first at registers families.old kinds.old sizes.old families.new kinds.new sizes.new }
{
    let mut from = at;
    for j in 0..count {
        let row = first + j;
        from = typed_row(
            program, from, to, parent, m, row, registers, families, kinds, sizes,
        )?;
    }
    Ok(from)
}

// The two numbers of the family or the family type at `at`, whose field ends at `next`.
pub fn two_counts(program: &[u8], at: usize, next: usize) -> Result<Counts, Refusal>
    requires { (at + 3 ≤ next) × (next ≤ length program.now) }
    ensures result_value { checked_counts result ≡ counts_in at (slice (at + 3) next program.now) }
    ensures both_right { BothRight at next result }
{
    let from = at + 3;
    if next <= from {
        return Err(Refusal(Reason::BadContent, at));
    }
    let m = usize::from(program[from]);
    if MOST_VARIABLES < m {
        return Err(Refusal(Reason::TooMany, at));
    }
    let second = at + 4;
    if next <= second {
        return Err(Refusal(Reason::BadContent, at));
    }
    let n = usize::from(program[second]);
    if n == 0 {
        return Err(Refusal(Reason::TooMany, at));
    }
    if MOST_PARAMETERS < n {
        return Err(Refusal(Reason::TooMany, at));
    }
    Ok(Counts {
        variables: m,
        parameters: n,
    })
}

// The size of the register at `at`, whose field ends at `next`, after `count` registers with `total` qubits or bits, of which there may be at most `most`.
fn register_size(
    program: &[u8],
    at: usize,
    next: usize,
    count: usize,
    total: usize,
    most: usize,
) -> Result<usize, Refusal>
    requires at_bound { (at + 3 ≤ next) × (next ≤ length program.now) }
    requires total_le_most { total ≤ most }
    requires most_le_furthest { most ≤ furthest }
    ensures { checked_register result ≡ register_in at count total most (slice (at + 3) next program.now) }
{
    if MOST_REGISTERS <= count {
        return Err(Refusal(Reason::TooMany, at));
    }
    let from = at + 3;
    if next - from < 2 {
        return Err(Refusal(Reason::BadContent, at));
    }
    let n = fields::two_bytes(program, from);
    if most < total + n {
        return Err(Refusal(Reason::TooLarge, at));
    }
    if next - from != 2 {
        return Err(Refusal(Reason::BadContent, at));
    }
    Ok(n)
}

// The register of a kind at `at`, put into its row; the rest is as for its size.
pub fn register(
    program: &[u8],
    at: usize,
    next: usize,
    kind: kinds::Kind,
    count: usize,
    total: usize,
    most: usize,
    kinds: &mut [u16],
    sizes: &mut [Size],
) -> Result<usize, Refusal>
    requires at_bound { (at + 3 ≤ next) × (next ≤ length program.now) }
    requires total_le_most { total ≤ most }
    requires most_le_furthest { most ≤ furthest }
    requires program_len_bound { length program.now ≤ longest_program }
    requires in_use { InUse 0 count at kinds.old }
    requires operand_table { OperandTable (length program.now) kinds.old sizes.old }
    ensures result_value { checked_register result ≡ register_in at count total most (slice (at + 3) next program.now) }
    ensures register_set { RegisterSet (length program.now) next result kind count total most kinds.old sizes.old kinds.new sizes.new }
{
    let size = register_size(program, at, next, count, total, most)?;
    let mut f = [0i64; FORM_NUMBERS];
    forms::set_constant(&mut f, size as i64);
    let mut short = [0i32; SIZE_NUMBERS];
    forms::store(&mut short, &f);
    let own = size_row(at, count);
    kinds[count] = row_number(kind, own);
    sizes[own] = short;
    Ok(size)
}
