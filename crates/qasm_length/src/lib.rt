// The length of a list's text, measured without writing it.
#![tactic(auto)]

ghost use Rattle.std.specs.Prelude.{◌≡◌, ◌+◌, ◌*◌, ◌^◌, ◌≤◌, length};
ghost use Rattle.language.specs.Limits.{record_size, most_halvings};
ghost use Rattle.text_bytes.specs.Decimal.{width};
ghost use Rattle.qasm_text.specs.Text.{action_text, condition_text, line, lines, qreg_line, creg_lines, text_of};
ghost use Rattle.qasm_text.specs.RecordsIn.{number_at};
ghost use Rattle.qasm_length.specs.AnyBytes.{action_from, condition_from, record_from, records_from, FewHalvings};
ghost use Rattle.qasm_length.specs.Lengths.{Measured, Measures};

use limits::RECORD_SIZE;

// The bytes of the two lines that every text begins with.
const FIRST_LINES: usize = 36;

// How many digits a number has in decimal.
fn digits_of(n: u16) -> usize
    ensures { Measured (width n) 5 result }
{
    match n {
        0..=9 => 1,
        10..=99 => 2,
        100..=999 => 3,
        1000..=9999 => 4,
        _ => 5,
    }
}

// How many digits 2 to the k has in decimal: the decimal logarithm of 2 is nearly 0.30103.
pub fn power_digits(k: u16) -> usize
    requires { k ≤ most_halvings }
    ensures { Measured (width (2 ^ k)) 19 result }
{
    usize::from(k) * 30103 / 100000 + 1
}

// The two-byte number at a position of the output.
pub fn number_at(output: &[u8], at: usize) -> u16
    requires { at + 2 ≤ length output.now }
    ensures { result ≡ number_at output.now at }
{
    fields::two_bytes(output, at) as u16
}

// The length of an operation with its numbers.
fn action_length(op: u8, first: u16, second: u16, k: u16) -> usize
    requires { k ≤ most_halvings }
    ensures { Measured (length (action_text (action_from op first second k))) 48 result }
{
    let one = digits_of(first);
    match op {
        1 => 5 + one,
        2 => 5 + one,
        3 => 7 + one,
        4 => 10 + one + digits_of(second),
        5 => 19 + one + digits_of(second),
        7 => 13 + one + power_digits(k),
        8 => 14 + one + power_digits(k),
        9 => 18 + one + digits_of(second) + power_digits(k),
        10 => 19 + one + digits_of(second) + power_digits(k),
        _ => 9 + one,
    }
}

// The length of a condition before it.
fn condition_length(kind: u8, bit: u16) -> usize
    ensures { Measured (length (condition_text (condition_from kind bit))) 18 result }
{
    if kind == 0 {
        return 0;
    }
    let value = u16::from(kind) - 1;
    8 + digits_of(bit) + digits_of(value)
}

// The length of the line of the record at a position of the output.
fn line_length(output: &[u8], at: usize) -> usize
    requires record_size_in_bounds { at + record_size ≤ length output.now }
    requires at_bound { number_at output.now (at + 8) ≤ most_halvings }
    ensures { Measured (length (line (record_from output.now at))) 68 result }
{
    let condition = condition_length(output[at + 1], number_at(output, at + 6));
    let action = action_length(
        output[at],
        number_at(output, at + 2),
        number_at(output, at + 4),
        number_at(output, at + 8),
    );
    condition + action + 2
}

// The length of the line that declares the wires.
fn qreg_length(wires: u16) -> usize
    ensures { Measured (length (qreg_line wires)) 15 result }
{
    if wires == 0 {
        return 0;
    }
    10 + digits_of(wires)
}

// The length of the lines that declare the bits.
fn cregs_length(bits: u16) -> usize
    ensures { Measured (length (creg_lines bits)) (16 * bits) result }
{
    let mut total: usize = 0;
    for k in 0..bits {
        total += 11 + digits_of(k);
    }
    total
}

// The length of the lines of so many records, if the room is enough.
fn lines_length(output: &[u8], records: usize, room: usize) -> Option<usize>
    requires records_in_bounds { record_size * records ≤ length output.now }
    requires few_halvings { FewHalvings records output.now }
    ensures { Measures room (length (lines (records_from records output.now))) result }
{
    let mut total: usize = 0;
    for i in 0..records {
        let line = line_length(output, RECORD_SIZE * i);
        if room - total < line {
            return None;
        }
        total += line;
    }
    Some(total)
}

// The length of the text of so many records over wires and bits, if the room is enough.
pub fn text_length(
    output: &[u8],
    records: usize,
    wires: u16,
    bits: u16,
    room: usize,
) -> Option<usize>
    requires records_in_bounds { record_size * records ≤ length output.now }
    requires few_halvings { FewHalvings records output.now }
    ensures { Measures room (length (text_of wires bits (records_from records output.now))) result }
{
    let header = FIRST_LINES + qreg_length(wires) + cregs_length(bits);
    let left = room.checked_sub(header)?;
    let n = lines_length(output, records, left)?;
    Some(header + n)
}
