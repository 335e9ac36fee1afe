// What is said where reading or writing fails.
use std::fmt::InlineText;
use std::io::Error;

// What failed, and why.
#[derive(Debug)]
pub enum Failure {
    Reading(Error),
    Writing(Error),
}

// Says on standard error what failed and why, as the system puts it, without the number that std adds to that.
pub fn say(rt: &HostRuntime, failure: Failure) {
    let (what, error) = match failure {
        Failure::Reading(e) => ("list: reading standard input", e),
        Failure::Writing(e) => ("list: writing standard output", e),
    };
    let text = InlineText::<256>::of(error);
    let whole = text.as_str();
    let why = match whole.split_once(" (os error ") {
        Some((words, _)) => words,
        None => whole,
    };
    // Where standard error takes nothing, nobody can be told.
    let _ = eprintln!(rt; "{what}: {why}");
}
