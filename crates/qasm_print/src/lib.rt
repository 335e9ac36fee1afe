// Prints a list as OpenQASM 2.0 text: words and numbers put one after another into a buffer.
#![tactic(auto)]

ghost use Rattle.std.specs.Prelude.{◌≡◌, List, ◌++◌, ◌+◌, ◌*◌, ◌^◌, ◌≤◌, ◌<◌, length};
ghost use Rattle.std.proofs.Math.Option.{some};
ghost use Rattle.language.specs.Limits.{record_size, most_halvings};
ghost use Rattle.language.specs.Machine.{do_cx, do_measure, Record};
ghost use Rattle.text_bytes.specs.Decimal.{ascii, digit, decimal, width};
ghost use Rattle.qasm_text.specs.Text.{wire_text, bit_text, action_text, condition_text, line, lines, qreg_line, creg_line, creg_lines, header, text_of};
ghost use Rattle.qasm_text.specs.RecordsIn.{number_at, records_in};
ghost use Rattle.qasm_length.specs.AnyBytes.{action_from, condition_from, record_from, records_from, FewHalvings};
ghost use Rattle.text_bytes.specs.Buffers.{Room, Puts};
ghost use Rattle.qasm_print.specs.Prints.{two_digits, angled, Prints};

use limits::RECORD_SIZE;

// The byte of a digit.
fn digit_byte(n: u16) -> u8
    requires { n < 10 }
    ensures { result ≡ digit n }
{
    (48 + n) as u8
}

// Puts a number below 100 as two digits.
fn put_pair(n: u16, text: &mut [u8], from: usize) -> usize
    requires n_bound { n < 100 }
    requires room { Room text.old from (two_digits n) }
    ensures { Puts text.old from (two_digits n) text.new result }
{
    let next = from + 1;
    text[from] = digit_byte(n / 10);
    text[next] = digit_byte(n % 10);
    next + 1
}

// Puts a digit.
fn put_digit(n: u16, text: &mut [u8], from: usize) -> usize
    requires n_bound { n < 10 }
    requires room { Room text.old from (decimal n) }
    ensures { Puts text.old from (decimal n) text.new result }
{
    text[from] = digit_byte(n);
    from + 1
}

// Puts a number in decimal.
fn put_number(n: u16, text: &mut [u8], from: usize) -> usize
    requires { Room text.old from (decimal n) }
    ensures { Puts text.old from (decimal n) text.new result }
{
    if n < 10 {
        return put_digit(n, text, from);
    }
    if n < 100 {
        return put_pair(n, text, from);
    }
    let hundreds = n / 100;
    let rest = n % 100;
    if n < 1000 {
        let at = put_digit(hundreds, text, from);
        return put_pair(rest, text, at);
    }
    if n < 10000 {
        let at = put_pair(hundreds, text, from);
        return put_pair(rest, text, at);
    }
    let first = put_digit(hundreds / 100, text, from);
    let at = put_pair(hundreds % 100, text, first);
    put_pair(rest, text, at)
}

// Puts a number of so many digits in decimal, two digits at a time from its end.
fn put_digits(n: u64, many: usize, text: &mut [u8], from: usize) -> usize
    requires many_value { many ≡ width n }
    requires room { Room text.old from (decimal n) }
    ensures { Puts text.old from (decimal n) text.new result }
{
    let end = from + many;
    let mut at = end;
    let mut rest = n;
    while rest >= 100 {
        at -= 2;
        put_pair((rest % 100) as u16, text, at);
        rest /= 100;
    }
    put_number(rest as u16, text, from);
    end
}

// Puts 2 to the k in decimal.
fn put_power(k: u16, text: &mut [u8], from: usize) -> usize
    requires k_le_most_halvings { k ≤ most_halvings }
    requires room { Room text.old from (decimal (2 ^ k)) }
    ensures { Puts text.old from (decimal (2 ^ k)) text.new result }
{
    let power: u64 = 1 << k;
    put_digits(power, qasm_length::power_digits(k), text, from)
}

// Puts a wire.
fn put_wire(n: u16, text: &mut [u8], from: usize) -> usize
    requires { Room text.old from (wire_text (record { number = n })) }
    ensures { Puts text.old from (wire_text (record { number = n })) text.new result }
{
    let name = text_bytes::put(b"q[", text, from);
    let end = put_number(n, text, name);
    text_bytes::put(b"]", text, end)
}

// Puts a bit's register.
fn put_bit(n: u16, text: &mut [u8], from: usize) -> usize
    requires { Room text.old from (bit_text (record { number = n })) }
    ensures { Puts text.old from (bit_text (record { number = n })) text.new result }
{
    let name = text_bytes::put(b"c", text, from);
    put_number(n, text, name)
}

// Puts a word and a wire.
fn put_on_wire(word: &[u8], n: u16, text: &mut [u8], from: usize) -> usize
    requires { Room text.old from (word.now ++ wire_text (record { number = n })) }
    ensures { Puts text.old from (word.now ++ wire_text (record { number = n })) text.new result }
{
    let name = text_bytes::put(word, text, from);
    put_wire(n, text, name)
}

// Puts a word that opens an angle, the angle's 2 to the k, and its end.
fn put_angle(word: &[u8], k: u16, text: &mut [u8], from: usize) -> usize
    requires k_le_most_halvings { k ≤ most_halvings }
    requires room { Room text.old from (angled word.now k) }
    ensures { Puts text.old from (angled word.now k) text.new result }
{
    let name = text_bytes::put(word, text, from);
    let power = put_power(k, text, name);
    text_bytes::put(b") ", text, power)
}

// Puts a phase on a wire.
fn put_phase(word: &[u8], k: u16, wire: u16, text: &mut [u8], from: usize) -> usize
    requires k_le_most_halvings { k ≤ most_halvings }
    requires room { Room text.old from (angled word.now k ++ wire_text (record { number = wire })) }
    ensures { Puts text.old from (angled word.now k ++ wire_text (record { number = wire })) text.new result }
{
    let angle = put_angle(word, k, text, from);
    put_wire(wire, text, angle)
}

// Puts a phase on its control and its target. Copied into each place, so that the word is one that is known there.
#[inline(always)]
fn put_cphase(word: &[u8], k: u16, control: u16, target: u16, text: &mut [u8], from: usize) -> usize
    requires k_le_most_halvings { k ≤ most_halvings }
    requires room { Room text.old from (angled word.now k ++ wire_text (record { number = control }) ++ ascii "," ++ wire_text (record { number = target })) }
    ensures { Puts text.old from (angled word.now k ++ wire_text (record { number = control }) ++ ascii "," ++ wire_text (record { number = target })) text.new result }
{
    let wire = put_phase(word, k, control, text, from);
    let comma = text_bytes::put(b",", text, wire);
    put_wire(target, text, comma)
}

// Puts a cx on its control and its target.
fn put_cx(control: u16, target: u16, text: &mut [u8], from: usize) -> usize
    requires { Room text.old from (action_text (do_cx (record { number = control }) (record { number = target }))) }
    ensures { Puts text.old from (action_text (do_cx (record { number = control }) (record { number = target }))) text.new result }
{
    let wire = put_on_wire(b"cx ", control, text, from);
    let comma = text_bytes::put(b",", text, wire);
    put_wire(target, text, comma)
}

// Puts the measurement of a wire into a bit.
fn put_measure(wire: u16, bit: u16, text: &mut [u8], from: usize) -> usize
    requires { Room text.old from (action_text (do_measure (record { number = wire }) (record { number = bit }))) }
    ensures { Puts text.old from (action_text (do_measure (record { number = wire }) (record { number = bit }))) text.new result }
{
    let measured = put_on_wire(b"measure ", wire, text, from);
    let arrow = text_bytes::put(b" -> ", text, measured);
    let register = put_bit(bit, text, arrow);
    text_bytes::put(b"[0]", text, register)
}

// Puts an operation and what it is on.
fn put_action(op: u8, first: u16, second: u16, k: u16, text: &mut [u8], from: usize) -> usize
    requires k_le_most_halvings { k ≤ most_halvings }
    requires room { Room text.old from (action_text (action_from op first second k)) }
    ensures { Puts text.old from (action_text (action_from op first second k)) text.new result }
{
    match op {
        1 => put_on_wire(b"h ", first, text, from),
        2 => put_on_wire(b"t ", first, text, from),
        3 => put_on_wire(b"tdg ", first, text, from),
        4 => put_cx(first, second, text, from),
        5 => put_measure(first, second, text, from),
        7 => put_phase(b"u1(2*pi/", k, first, text, from),
        8 => put_phase(b"u1(-2*pi/", k, first, text, from),
        9 => put_cphase(b"cu1(2*pi/", k, first, second, text, from),
        10 => put_cphase(b"cu1(-2*pi/", k, first, second, text, from),
        _ => put_on_wire(b"reset ", first, text, from),
    }
}

// Puts the condition of a record.
fn put_condition(kind: u8, bit: u16, text: &mut [u8], from: usize) -> usize
    requires { Room text.old from (condition_text (condition_from kind bit)) }
    ensures { Puts text.old from (condition_text (condition_from kind bit)) text.new result }
{
    if kind == 0 {
        return from;
    }
    let value = u16::from(kind) - 1;
    let word = text_bytes::put(b"if(", text, from);
    let name = put_bit(bit, text, word);
    let equals = text_bytes::put(b"==", text, name);
    let end = put_number(value, text, equals);
    text_bytes::put(b") ", text, end)
}

// Puts the line of the record at a position of the output.
fn put_line(output: &[u8], at: usize, text: &mut [u8], from: usize) -> usize
    requires record_size_in_bounds { at + record_size ≤ length output.now }
    requires at_bound { number_at output.now (at + 8) ≤ most_halvings }
    requires room { Room text.old from (line (record_from output.now at)) }
    ensures { Puts text.old from (line (record_from output.now at)) text.new result }
{
    let bit = qasm_length::number_at(output, at + 6);
    let condition = put_condition(output[at + 1], bit, text, from);
    let first = qasm_length::number_at(output, at + 2);
    let second = qasm_length::number_at(output, at + 4);
    let k = qasm_length::number_at(output, at + 8);
    let action = put_action(output[at], first, second, k, text, condition);
    text_bytes::put(b";\n", text, action)
}

// Puts the lines of so many records.
fn put_lines(output: &[u8], records: usize, text: &mut [u8], from: usize) -> usize
    requires records_in_bounds { record_size * records ≤ length output.now }
    requires few_halvings { FewHalvings records output.now }
    requires room { Room text.old from (lines (records_from records output.now)) }
    ensures { Puts text.old from (lines (records_from records output.now)) text.new result }
{
    let mut at = from;
    for i in 0..records {
        at = put_line(output, RECORD_SIZE * i, text, at);
    }
    at
}

// Puts the line that declares the wires, if there are any.
fn put_qreg(wires: u16, text: &mut [u8], from: usize) -> usize
    requires { Room text.old from (qreg_line wires) }
    ensures { Puts text.old from (qreg_line wires) text.new result }
{
    if wires == 0 {
        return from;
    }
    let name = text_bytes::put(b"qreg q[", text, from);
    let end = put_number(wires, text, name);
    text_bytes::put(b"];\n", text, end)
}

// Puts the line that declares a bit.
fn put_creg(bit: u16, text: &mut [u8], from: usize) -> usize
    requires { Room text.old from (creg_line bit) }
    ensures { Puts text.old from (creg_line bit) text.new result }
{
    let name = text_bytes::put(b"creg c", text, from);
    let end = put_number(bit, text, name);
    text_bytes::put(b"[1];\n", text, end)
}

// Puts the lines that declare so many bits.
fn put_cregs(bits: u16, text: &mut [u8], from: usize) -> usize
    requires { Room text.old from (creg_lines bits) }
    ensures { Puts text.old from (creg_lines bits) text.new result }
{
    let mut at = from;
    for bit in 0..bits {
        at = put_creg(bit, text, at);
    }
    at
}

// Puts the lines before the records.
fn put_header(wires: u16, bits: u16, text: &mut [u8], from: usize) -> usize
    requires { Room text.old from (header wires bits) }
    ensures { Puts text.old from (header wires bits) text.new result }
{
    let version = text_bytes::put(b"OPENQASM 2.0;\n", text, from);
    let include = text_bytes::put(b"include \"qelib1.inc\";\n", text, version);
    let qreg = put_qreg(wires, text, include);
    put_cregs(bits, text, qreg)
}

// Prints the first records of an output over so many wires and bits, if the text fits, and gives its length. It is measured first,
// so that a text that does not fit leaves the buffer as it was.
pub fn print(output: &[u8], records: usize, wires: u16, bits: u16, text: &mut [u8]) -> Option<usize>
    requires records_in_bounds { record_size * records ≤ length output.now }
    requires few_halvings { FewHalvings records output.now }
    ensures { (rs : List Record) → records_in records output.now ≡ some rs → Prints text.old (text_of wires bits rs) text.new result }
{
    let room = text.len();
    let length = qasm_length::text_length(output, records, wires, bits, room)?;
    let first = put_header(wires, bits, text, 0);
    put_lines(output, records, text, first);
    Some(length)
}
