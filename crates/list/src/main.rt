// Lists a program: reads its bytes from standard input, runs it whole or one family of it at given sizes, and prints a
// line for each record and last `end NUMBER PLACE RECORDS STEPS`.
#![tactic(auto)]

mod help;
mod input;
mod output;

ghost use Rattle.std.specs.Prelude.{◌*◌, ◌≤◌, ◌≡◌, length};
ghost use Rattle.language.specs.Limits.{record_size};
ghost use Rattle.language.specs.Result.{finished};
ghost use Rattle.metaqasm.specs.Answers.{answered};
ghost use Rattle.list_words.specs.Words.{outcome_of};
ghost use Rattle.list_words.specs.Jobs.{job_meant, JobHeld, Held};

use list_words::{Asked, Job};
use metaqasm::{MetaqasmResult, metaqasm_instance as list_family, metaqasm_run as list_whole};
use output::Failure;
use std::io::{Error, Print};

// The steps that a program may take.
const LIMIT: u64 = 1000000;

// Prints the lines of the records, a buffer of them at a time.
fn print_records(rt: &HostRuntime, output: &[u8], records: usize) -> Result<(), Error>
    requires { record_size * records ≤ length output.now }
{
    let mut space = io::buffer();
    let buffer: &mut [u8] = &mut space;
    let mut next: usize = 0;
    while next < records {
        let chunk = list_text::lines(output, next, records, buffer);
        let size = chunk.size;
        Print::write_all(rt, &buffer[..size])?;
        next = chunk.next;
    }
    Ok(())
}

// Prints the last line.
fn print_result(rt: &HostRuntime, res: MetaqasmResult) -> Result<(), Error> {
    let mut buffer = io::buffer();
    let size = list_text::last_line(
        u64::from(res.number),
        u64::from(res.place),
        res.records,
        res.steps,
        &mut buffer,
    );
    Print::write_all(rt, &buffer[..size])
}

// Prints a listing. Where a write fails, nothing more is printed.
fn print_listing(rt: &HostRuntime, output: &[u8], res: MetaqasmResult) -> Result<(), Error>
    requires { record_size * res.records ≤ length output.now }
{
    print_records(rt, output, res.records as usize)?;
    print_result(rt, res)
}

// Runs a job on a program.
fn answer(job: Job, sizes: &[u8], program: &[u8], output: &mut [u8]) -> MetaqasmResult
    requires { JobHeld job sizes.now }
    ensures outcome { outcome_of (job_meant job sizes.now) program.now output.old ≡ finished (record { result = answered result; output = output.new }) }
    ensures records_in_bounds { record_size * result.records ≤ length output.new }
{
    match job {
        Job::Whole => list_whole(program, LIMIT, output),
        Job::Family(family, size) => list_family(program, family, &sizes[..size], LIMIT, output),
    }
}

// Does a job on the program that standard input has. A program of more than 65,535 bytes is handed over as 65,536 bytes,
// however long it is, and the library refuses it: `end 1 0 0 0`.
fn list_program(rt: &HostRuntime, job: Job, sizes: &[u8]) -> Result<(), Failure>
    requires { JobHeld job sizes.now }
{
    let mut program = io::large_buffer();
    let size = input::read_program(rt, &mut program).map_err(Failure::Reading)?;
    let mut output = io::large_buffer();
    let result = answer(job, sizes, &program[..size], &mut output);
    print_listing(rt, &output, result).map_err(Failure::Writing)
}

// What the words behind the program's name ask for, if they fit and it can be done. Sizes are put into bytes.
fn asked(rt: &HostRuntime, sizes: &mut [u8]) -> Option<Asked>
    requires { 64 ≤ length sizes.old }
    ensures { Held result sizes.new }
{
    let mut space = io::buffer();
    let size = input::read_words(rt, &mut space)?;
    list_words::request(&space[..size], sizes)
}

// Does what the words behind the program's name ask for. Where reading or writing fails, a message says so.
fn main(rt: HostRuntime) {
    let mut sizes = io::buffer();
    let done = match asked(&rt, &mut sizes) {
        Some(Asked::Listing(job)) => list_program(&rt, job, &sizes),
        Some(Asked::Help) => help::print_help(&rt).map_err(Failure::Writing),
        None => {
            help::print_usage(&rt);
            Ok(())
        }
    };
    if let Err(failure) = done {
        output::say(&rt, failure);
    }
}
