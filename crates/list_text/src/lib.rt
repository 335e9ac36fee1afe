// The text of a listing: words and numbers put one after another into a buffer.
#![tactic(auto)]

ghost use Rattle.std.specs.Prelude.{◌≡◌, ◌++◌, ◌+◌, ◌*◌, ◌-◌, ◌<◌, ◌≤◌, length, take};
ghost use Rattle.language.specs.Limits.{record_size};
ghost use Rattle.io.specs.Counts.{IsPrefixLen};
ghost use Rattle.list_text.specs.Lines.{number_text, gate_text, condition_text, two_bytes_at, line_text, lines_text, end_text, Put};

use limits::RECORD_SIZE;

// The bytes of text that any line fits in.
const LINE: usize = 128;

// The records up to `next` are in the first `size` bytes of a text.
#[derive(Clone, Copy, Debug, PartialEq, Eq)]
pub struct Chunk {
    pub next: usize,
    pub size: usize,
}

// Puts a space and a number in decimal.
fn number(n: u64, text: &mut [u8], from: usize) -> usize
    requires { from + 21 ≤ length text.old }
    ensures { Put text.old from text.new result (number_text n) 21 }
{
    let mut digits = [0u8; 20];
    let many = io::decimal(n, &mut digits);
    let at = text_bytes::put(b" ", text, from);
    text_bytes::put(&digits[..many], text, at)
}

// Puts a name and a number.
fn named(name: &[u8], first: u64, text: &mut [u8], from: usize) -> usize
    requires name_len_bound { length name.now ≤ 8 }
    requires from_in_bounds { from + 29 ≤ length text.old }
    ensures { Put text.old from text.new result (name.now ++ number_text first) 29 }
{
    let at = text_bytes::put(name, text, from);
    number(first, text, at)
}

// Puts a name and two numbers.
fn paired(name: &[u8], first: u64, second: u64, text: &mut [u8], from: usize) -> usize
    requires name_len_bound { length name.now ≤ 8 }
    requires from_in_bounds { from + 50 ≤ length text.old }
    ensures { Put text.old from text.new result (name.now ++ number_text first ++ number_text second) 50 }
{
    let at = named(name, first, text, from);
    number(second, text, at)
}

// Puts a name and three numbers.
fn tripled(name: &[u8], first: u64, second: u64, third: u64, text: &mut [u8], from: usize) -> usize
    requires name_len_bound { length name.now ≤ 8 }
    requires from_in_bounds { from + 71 ≤ length text.old }
    ensures { Put text.old from text.new result (name.now ++ number_text first ++ number_text second ++ number_text third) 71 }
{
    let at = paired(name, first, second, text, from);
    number(third, text, at)
}

// Puts an operation, a phase's k, and the wires or bits that it is on.
fn gate(op: u8, first: u64, second: u64, k: u64, text: &mut [u8], from: usize) -> usize
    requires { from + 71 ≤ length text.old }
    ensures { Put text.old from text.new result (gate_text op first second k) 71 }
{
    match op {
        1 => named(b"h", first, text, from),
        2 => named(b"t", first, text, from),
        3 => named(b"tdg", first, text, from),
        4 => paired(b"cx", first, second, text, from),
        5 => paired(b"measure", first, second, text, from),
        6 => named(b"reset", first, text, from),
        7 => paired(b"phase", k, first, text, from),
        8 => paired(b"phasedg", k, first, text, from),
        9 => tripled(b"cphase", k, first, second, text, from),
        10 => tripled(b"cphasedg", k, first, second, text, from),
        _ => named(b"op", u64::from(op), text, from),
    }
}

// Puts the condition of a record: the bit and the value that it must have.
fn condition(kind: u8, bit: u64, text: &mut [u8], from: usize) -> usize
    requires { from + 51 ≤ length text.old }
    ensures { Put text.old from text.new result (condition_text kind bit) 51 }
{
    if kind == 0 {
        return from;
    }
    let at = paired(b"if", bit, u64::from(kind) - 1, text, from);
    text_bytes::put(b" ", text, at)
}

// The two-byte number at a place of a record.
fn two_bytes(bytes: &[u8], at: usize) -> u64
    requires { at + 1 < length bytes.now }
    ensures { result ≡ two_bytes_at bytes.now at }
{
    u64::from(bytes[at]) + 256 * u64::from(bytes[at + 1])
}

// Puts the line of a record.
fn line(bytes: &[u8], text: &mut [u8], from: usize) -> usize
    requires record_size_in_bounds { record_size ≤ length bytes.now }
    requires from_in_bounds { from + 128 ≤ length text.old }
    ensures { Put text.old from text.new result (line_text bytes.now) 128 }
{
    let at = condition(bytes[1], two_bytes(bytes, 6), text, from);
    let first = two_bytes(bytes, 2);
    let second = two_bytes(bytes, 4);
    let end = gate(bytes[0], first, second, two_bytes(bytes, 8), text, at);
    text_bytes::put(b"\n", text, end)
}

// Puts the lines of the records from `first` on, as many of `total` as there is room for.
pub fn lines(records: &[u8], first: usize, total: usize, text: &mut [u8]) -> Chunk
    requires total_in_bounds { record_size * total ≤ length records.now }
    requires first_lt_total { first < total }
    requires in_bounds { 128 ≤ length text.old }
    ensures text { take result.size text.new ≡ lines_text records.now first (result.next - first) }
    ensures room { IsPrefixLen result.size text.new }
    ensures more { first < result.next }
    ensures within { result.next ≤ total }
{
    let mut next = first;
    let mut size: usize = 0;
    while next < total && text.len() - size >= LINE {
        let from = RECORD_SIZE * next;
        let to = from + RECORD_SIZE;
        size = line(&records[from..to], text, size);
        next += 1;
    }
    Chunk { next, size }
}

// Puts the last line at the start of the text: the outcome's number and place, and the counts of records and steps.
pub fn last_line(outcome: u64, place: u64, records: u64, steps: u64, text: &mut [u8]) -> usize
    requires { 128 ≤ length text.old }
    ensures text { take result text.new ≡ end_text outcome place records steps }
    ensures room { IsPrefixLen result text.new }
{
    let placed = paired(b"end", outcome, place, text, 0);
    let recorded = number(records, text, placed);
    let stepped = number(steps, text, recorded);
    text_bytes::put(b"\n", text, stepped)
}
