// The library's calls from C, as a static library: each calls the function of the same name in crate metaqasm and promises
// what that one promises (include/metaqasm.h).
#![tactic(auto)]

ghost use Rattle.std.specs.Prelude.{◌≡◌, ◌*◌, ◌≤◌, length};
ghost use Rattle.language.specs.Result.{finished, check_result, instance_outcome, run_outcome};
ghost use Rattle.language.specs.Limits.{record_size};
ghost use Rattle.qasm_text.specs.TextResult.{text_finished, run_text_outcome, instance_text_outcome};
ghost use Rattle.metaqasm.specs.Answers.{answered, SoundRun, SoundInstance};
ghost use Rattle.metaqasm.specs.TextAnswers.{text_answered, SoundRunText, SoundInstanceText};

use metaqasm::{MetaqasmResult, MetaqasmTextResult};

// Checks a program.
#[unsafe(no_mangle)]
pub extern "C" fn metaqasm_check(program: &[u8]) -> MetaqasmResult
    ensures { answered result ≡ check_result program.now }
{
    metaqasm::metaqasm_check(program)
}

// Writes the gate list of the whole program. The first promise rules out that the machine is stuck. The second says, where
// the check gives 0, that the answer is the machine's own, 0 exactly where it came to its end, which ends are possible, what
// the records name and which bytes are kept. The others are parts of it that hold for every program.
#[unsafe(no_mangle)]
pub extern "C" fn metaqasm_run(program: &[u8], limit: u64, output: &mut [u8]) -> MetaqasmResult
    ensures outcome { run_outcome program.now limit output.old ≡ finished (record { result = answered result; output = output.new }) }
    ensures sound { SoundRun program.now limit output.old (record { result = answered result; output = output.new }) }
    ensures records_in_bounds { record_size * result.records ≤ length output.new }
    ensures steps_le_limit { result.steps ≤ limit }
{
    metaqasm::metaqasm_run(program, limit, output)
}

// Writes the gate list of one family at given sizes, with the same promises; a family with a family parameter has none.
#[unsafe(no_mangle)]
pub extern "C" fn metaqasm_instance(
    program: &[u8],
    family: u32,
    sizes: &[u8],
    limit: u64,
    output: &mut [u8],
) -> MetaqasmResult
    ensures outcome { instance_outcome program.now family sizes.now limit output.old ≡ finished (record { result = answered result; output = output.new }) }
    ensures sound { SoundInstance program.now family sizes.now limit output.old (record { result = answered result; output = output.new }) }
    ensures records_in_bounds { record_size * result.records ≤ length output.new }
    ensures steps_le_limit { result.steps ≤ limit }
{
    metaqasm::metaqasm_instance(program, family, sizes, limit, output)
}

// Runs the whole program, and prints its list where it is complete. The first promise says what result, output and text are,
// for all inputs. The second says, where the check gives 0, that the run behind it is the machine's own, which ends are
// possible, that the text is that of the machine's list and which bytes are kept. The others are parts of it that hold for
// every program.
#[unsafe(no_mangle)]
pub extern "C" fn metaqasm_run_text(
    program: &[u8],
    limit: u64,
    output: &mut [u8],
    text: &mut [u8],
) -> MetaqasmTextResult
    ensures outcome { run_text_outcome program.now limit output.old text.old ≡ text_finished (record { result = text_answered result; output = output.new; text = text.new }) }
    ensures sound { SoundRunText program.now limit output.old text.old (record { result = text_answered result; output = output.new; text = text.new }) }
    ensures records_in_bounds { record_size * result.records ≤ length output.new }
    ensures steps_le_limit { result.steps ≤ limit }
    ensures length_in_bounds { result.length ≤ length text.new }
{
    metaqasm::metaqasm_run_text(program, limit, output, text)
}

// Runs one family at given sizes, and prints its list where it is complete, with the same promises.
#[unsafe(no_mangle)]
pub extern "C" fn metaqasm_instance_text(
    program: &[u8],
    family: u32,
    sizes: &[u8],
    limit: u64,
    output: &mut [u8],
    text: &mut [u8],
) -> MetaqasmTextResult
    ensures outcome { instance_text_outcome program.now family sizes.now limit output.old text.old ≡ text_finished (record { result = text_answered result; output = output.new; text = text.new }) }
    ensures sound { SoundInstanceText program.now family sizes.now limit output.old text.old (record { result = text_answered result; output = output.new; text = text.new }) }
    ensures records_in_bounds { record_size * result.records ≤ length output.new }
    ensures steps_le_limit { result.steps ≤ limit }
    ensures length_in_bounds { result.length ≤ length text.new }
{
    metaqasm::metaqasm_instance_text(program, family, sizes, limit, output, text)
}
