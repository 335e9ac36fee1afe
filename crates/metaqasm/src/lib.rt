// The calls that C makes through crate metaqasm_c, and that crate list makes.
#![tactic(auto)]

ghost use Rattle.std.specs.Prelude.{◌≡◌, List, ℕ, ◌*◌, ◌≤◌, length};
ghost use Rattle.std.proofs.Math.Option.{some};
ghost use Rattle.language.specs.Machine.{Record};
ghost use Rattle.language.specs.Result.{finished, check_result, instance_outcome, run_outcome};
ghost use Rattle.runs.specs.Conclusions.{concluded, result_in};
ghost use Rattle.language.specs.Limits.{record_size, most_wires, most_bits};
ghost use Rattle.qasm_text.specs.Text.{text_of};
ghost use Rattle.qasm_text.specs.RecordsIn.{records_in};
ghost use Rattle.qasm_length.specs.AnyBytes.{FewHalvings};
ghost use Rattle.qasm_text.specs.TextResult.{text_finished, without_text, printed, run_text_outcome, instance_text_outcome};
ghost use Rattle.metaqasm.specs.Answers.{answered, NotStuck, SoundRun, SoundInstance};
ghost use Rattle.metaqasm.specs.TextAnswers.{text_answered, SoundRunText, SoundInstanceText};

use limits::RECORD_SIZE;
use records::{State, Stop};
use refusals::Refusal;

// The answer of a call: number (0 for done), place, records and steps.
#[repr(C)]
#[derive(Clone, Copy)]
pub struct MetaqasmResult {
    pub number: u32,
    pub place: u32,
    pub records: u64,
    pub steps: u64,
}

// The check of a program.
fn checked(program: &[u8]) -> MetaqasmResult
    ensures { answered result ≡ check_result program.now }
{
    let (number, place) = match check_program::check_program(program) {
        Ok(()) => (0, 0),
        Err(Refusal(reason, place)) => (reason.number(), place as u32),
    };
    MetaqasmResult {
        number,
        place,
        records: 0,
        steps: 0,
    }
}

// The result of a state.
fn result(number: u32, place: u32, s: State) -> MetaqasmResult
    ensures { answered result ≡ result_in number place s }
{
    MetaqasmResult {
        number,
        place,
        records: (s.written / RECORD_SIZE) as u64,
        steps: s.steps,
    }
}

// The result of a run that came to an answer.
fn result_of_answer(a: Result<State, Stop>) -> MetaqasmResult
    requires { NotStuck a }
    ensures { (output : List ℕ) → concluded output a ≡ finished (record { result = answered result; output = output }) }
{
    match a {
        Ok(s) => result(0, 0, s),
        Err(Stop::Ended(reason, place, s)) => result(reason.number(), u32::from(place), s),
        // Not reached: what is required rules it out, and the theorem gives that. Its number is none that a call answers.
        Err(Stop::Stuck) => result(
            4294967295,
            0,
            State {
                written: 0,
                steps: 0,
            },
        ),
    }
}

// Checks a program.
pub fn metaqasm_check(program: &[u8]) -> MetaqasmResult
    ensures { answered result ≡ check_result program.now }
{
    checked(program)
}

// Writes the gate list of the whole program. The first promise rules out that the machine is stuck. The second says, where
// the check gives 0, that the answer is the machine's own, 0 exactly where it came to its end, which ends are possible, what
// the records name and which bytes are kept. The others are parts of it that hold for every program.
pub fn metaqasm_run(program: &[u8], limit: u64, output: &mut [u8]) -> MetaqasmResult
    ensures outcome { run_outcome program.now limit output.old ≡ finished (record { result = answered result; output = output.new }) }
    ensures sound { SoundRun program.now limit output.old (record { result = answered result; output = output.new }) }
    ensures records_in_bounds { record_size * result.records ≤ length output.new }
    ensures steps_le_limit { result.steps ≤ limit }
{
    let first = checked(program);
    if first.number != 0 {
        return first;
    }
    result_of_answer(runs::run(program, limit, output))
}

fn wide(n: u32) -> usize
    ensures { result ≡ n }
{
    n as usize
}

// Writes the gate list of one family at given sizes, with the same promises; a family with a family parameter has none.
pub fn metaqasm_instance(
    program: &[u8],
    family: u32,
    sizes: &[u8],
    limit: u64,
    output: &mut [u8],
) -> MetaqasmResult
    ensures outcome { instance_outcome program.now family sizes.now limit output.old ≡ finished (record { result = answered result; output = output.new }) }
    ensures sound { SoundInstance program.now family sizes.now limit output.old (record { result = answered result; output = output.new }) }
    ensures records_in_bounds { record_size * result.records ≤ length output.new }
    ensures steps_le_limit { result.steps ≤ limit }
{
    let first = checked(program);
    if first.number != 0 {
        return first;
    }
    result_of_answer(runs::instance(program, wide(family), sizes, limit, output))
}

// The answer of a call that prints: that of the run, and the length of the text.
#[repr(C)]
#[derive(Clone, Copy)]
pub struct MetaqasmTextResult {
    pub number: u32,
    pub place: u32,
    pub records: u64,
    pub steps: u64,
    pub length: u64,
}

// A number and a place with the counts of a run: nothing is printed.
fn unprinted(number: u32, place: u32, run: MetaqasmResult) -> MetaqasmTextResult
    ensures { text_answered result ≡ without_text number place (answered run) }
{
    MetaqasmTextResult {
        number,
        place,
        records: run.records,
        steps: run.steps,
        length: 0,
    }
}

// Prints the list of a run that is complete, over so many wires and bits.
fn printed(
    run: MetaqasmResult,
    wires: usize,
    bits: usize,
    output: &[u8],
    text: &mut [u8],
) -> MetaqasmTextResult
    requires records_in_bounds { record_size * run.records ≤ length output.now }
    requires few_halvings { FewHalvings run.records output.now }
    requires wires_le_most_wires { (wires ≤ most_wires) × (bits ≤ most_bits) }
    ensures { (rs : List Record) → records_in run.records output.now ≡ some rs → record { result = text_answered result; output = output.now; text = text.new } ≡ printed text.old (text_of wires bits rs) (record { result = answered run; output = output.now }) }
{
    let records = run.records as usize;
    match qasm_print::print(output, records, wires as u16, bits as u16, text) {
        None => unprinted(30, 0, run),
        Some(n) => MetaqasmTextResult {
            number: 0,
            place: 0,
            records: run.records,
            steps: run.steps,
            length: n as u64,
        },
    }
}

// Runs the whole program, and prints its list where it is complete. The first promise says what result, output and text are,
// for all inputs. The second says, where the check gives 0, that the run behind it is the machine's own, which ends are
// possible, that the text is that of the machine's list and which bytes are kept. The others are parts of it that hold for
// every program.
pub fn metaqasm_run_text(
    program: &[u8],
    limit: u64,
    output: &mut [u8],
    text: &mut [u8],
) -> MetaqasmTextResult
    ensures outcome { run_text_outcome program.now limit output.old text.old ≡ text_finished (record { result = text_answered result; output = output.new; text = text.new }) }
    ensures sound { SoundRunText program.now limit output.old text.old (record { result = text_answered result; output = output.new; text = text.new }) }
    ensures records_in_bounds { record_size * result.records ≤ length output.new }
    ensures steps_le_limit { result.steps ≤ limit }
    ensures length_in_bounds { result.length ≤ length text.new }
{
    let run = metaqasm_run(program, limit, output);
    if run.number != 0 {
        return unprinted(run.number, run.place, run);
    }
    let declared = laid_out::declared(program);
    printed(run, declared.qubits, declared.bits, output, text)
}

// Runs one family at given sizes, and prints its list where it is complete, with the same promises.
pub fn metaqasm_instance_text(
    program: &[u8],
    family: u32,
    sizes: &[u8],
    limit: u64,
    output: &mut [u8],
    text: &mut [u8],
) -> MetaqasmTextResult
    ensures outcome { instance_text_outcome program.now family sizes.now limit output.old text.old ≡ text_finished (record { result = text_answered result; output = output.new; text = text.new }) }
    ensures sound { SoundInstanceText program.now family sizes.now limit output.old text.old (record { result = text_answered result; output = output.new; text = text.new }) }
    ensures records_in_bounds { record_size * result.records ≤ length output.new }
    ensures steps_le_limit { result.steps ≤ limit }
    ensures length_in_bounds { result.length ≤ length text.new }
{
    let run = metaqasm_instance(program, family, sizes, limit, output);
    if run.number != 0 {
        return unprinted(run.number, run.place, run);
    }
    let wires = laid_out::wires(program, wide(family), sizes);
    printed(run, wires, 0, output, text)
}
