// What the program says of itself.
use std::io::{Print, Result};

// Says how the program is called, on standard error.
pub fn print_usage(rt: &HostRuntime) {
    // Where standard error takes nothing, nobody can be told.
    let _ = eprintln!(rt; "usage: list [FAMILY [SIZE ..]] < PROGRAM; list --help says more");
}

// Says what the program does.
pub fn print_help(rt: &HostRuntime) -> Result<()> {
    let text = b"usage: list < PROGRAM
       list FAMILY [SIZE ..] < PROGRAM
       list --help

Prints the gate list of a metaQASM program whose bytes standard input has: of
the whole program, or of one family at the sizes given. Families are numbered
from 0 as they are declared. FAMILY and each SIZE are decimal numbers from 0 to
4294967295, and at most 16 sizes are given. A list has at most 5,461 operations
(65,536 bytes of records) and takes at most 1,000,000 steps.

Each line is an operation with its k, if it is a phase, and its wires, after
`if BIT VALUE` where it has a condition. The last line is `end NUMBER PLACE
RECORDS STEPS`. NUMBER is 0 where the list is whole, and otherwise says why it
is not.

There is no exit status: a list is whole where its last line begins with
`end 0 ` and has its line end. Where reading or writing fails, there is no such
line, and a message is on standard error.
";
    Print::write_all(rt, text)
}
