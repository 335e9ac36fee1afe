// Records in the output.
#![tactic(auto)]

ghost use Rattle.std.specs.Prelude.{◌≡◌, [], ◌+◌, ◌<◌, ◌≤◌, length};
ghost use Rattle.std.proofs.lemmas.List.Edits.{sets};
ghost use Rattle.language.specs.Limits.{longest_program, record_size};
ghost use Rattle.language.specs.Result.{condition_byte, condition_bit};
ghost use Rattle.records.specs.Outcomes.{op_number, low_of, high_of, number_bytes, halving_bytes, condition_of, Stepped, Writes};

use limits::{MOST_HALVINGS, RECORD_SIZE};
use operands::Bit;
use refusals::Reason;

// What a record says is done, with its first byte.
#[derive(Clone, Copy, Debug, PartialEq, Eq)]
pub enum Op {
    H = 1,
    T = 2,
    Tdg = 3,
    Cx = 4,
    Measure = 5,
    Reset = 6,
    Phase = 7,
    PhaseInverse = 8,
    Cphase = 9,
    CphaseInverse = 10,
}

impl Op {
    // The byte of a record.
    pub fn number(self) -> u8
        ensures { result ≡ op_number self }
    {
        self as u8
    }
}

// What changes as a program runs: the bytes written, and the steps taken.
#[derive(Clone, Copy, Debug, PartialEq, Eq)]
pub struct State {
    pub written: usize,
    pub steps: u64,
}

// Why a run does not go on: it ends with a refusal at a place, or it has no meaning.
#[derive(Clone, Copy, Debug, PartialEq, Eq)]
pub enum Stop {
    Ended(Reason, u16, State),
    Stuck,
}

// The condition of the gates written.
#[derive(Clone, Copy)]
pub enum Condition {
    Always,
    IsZero(Bit),
    IsOne(Bit),
}

// Takes a step of the statement at `place`, if one is left.
pub fn take_step(limit: u64, place: usize, st: State) -> Result<State, Stop>
    requires { place ≤ longest_program }
    ensures { Stepped limit place st result }
{
    if limit <= st.steps {
        return Err(Stop::Ended(Reason::OutOfSteps, place as u16, st));
    }
    Ok(State {
        steps: st.steps + 1,
        ..st
    })
}

// A condition's byte and its bit.
#[derive(Clone, Copy)]
struct ConditionNumbers {
    byte: u8,
    bit: u16,
}

fn low(n: u16) -> u8
    ensures { result ≡ low_of n }
{
    (n % 256) as u8
}

fn high(n: u16) -> u8
    ensures { result ≡ high_of n }
{
    (n / 256) as u8
}

// Puts the first bytes of a record: op, condition, two numbers and the condition's bit.
fn put_numbers(out: &mut [u8], at: usize, op: u8, kind: u8, a: u16, b: u16, c: u16)
    requires { at + record_size ≤ length out.old }
    ensures { out.new ≡ sets out.old at (number_bytes op kind a b c []) }
{
    let bytes = [op, kind, low(a), high(a), low(b), high(b), low(c), high(c)];
    out[at..at + 8].copy_from_slice(&bytes);
}

// Puts the last bytes of a record: k, and two zero bytes.
fn put_halvings(out: &mut [u8], at: usize, k: u16)
    requires { at + 4 ≤ length out.old }
    ensures { out.new ≡ sets out.old at (halving_bytes k) }
{
    out[at..at + 4].copy_from_slice(&[low(k), high(k), 0, 0]);
}

fn numbers(c: Condition) -> ConditionNumbers
    ensures { (result.byte ≡ condition_byte (condition_of c)) × (result.bit ≡ condition_bit (condition_of c)) }
{
    match c {
        Condition::Always => ConditionNumbers { byte: 0, bit: 0 },
        Condition::IsZero(b) => ConditionNumbers { byte: 1, bit: b.0 },
        Condition::IsOne(b) => ConditionNumbers { byte: 2, bit: b.0 },
    }
}

// Writes a record of the statement at `place`, which has a k, or 0 for it: its op is the byte of an operation. Copied into each
// place, since it runs once a record.
#[inline(always)]
pub fn write_record(
    out: &mut [u8],
    st: State,
    place: usize,
    op: u8,
    a: u16,
    b: u16,
    k: usize,
    c: Condition,
) -> Result<State, Stop>
    requires { place ≤ longest_program }
    ensures { Writes out.old st out.new result place op a b k c }
{
    if MOST_HALVINGS < k {
        return Err(Stop::Ended(Reason::KTooLarge, place as u16, st));
    }
    let at = st.written;
    let len = out.len();
    if len < at || len - at < RECORD_SIZE {
        return Err(Stop::Ended(Reason::OutputFull, place as u16, st));
    }
    let condition = numbers(c);
    put_numbers(out, at, op, condition.byte, a, b, condition.bit);
    put_halvings(out, at + 8, k as u16);
    Ok(State {
        written: at + RECORD_SIZE,
        ..st
    })
}
