// The limits of programs, instances and records, each once. The definitions have them in specs/Limits of crate language.
#![tactic(auto)]

// Bytes of a program.
pub const LONGEST_PROGRAM: usize = 65_535;

pub const MOST_FAMILIES: usize = 4_096;

// Families that a call with a one-byte number can name; a call with a two-byte number names later ones.
pub const BYTE_FAMILIES: usize = 256;

pub const MOST_REGISTERS: usize = 255;

// Qubits of a program, and wires that an instance lays out.
pub const MOST_WIRES: usize = 65_535;

// Classical bits of a program.
pub const MOST_BITS: usize = 65_535;

// A size that an instance is asked at.
pub const LARGEST_SIZE: usize = 65_535;

// Index variables of a family.
pub const MOST_VARIABLES: usize = 4;

pub const MOST_PARAMETERS: usize = 8;

// Loops open at once.
pub const MOST_LOOPS: usize = 8;

// Index variables in scope at once.
pub const ALL_VARIABLES: usize = MOST_VARIABLES + MOST_LOOPS;

// Levels of nested statements, and of nested indexes.
pub const DEEPEST: usize = 16;

// A form's numbers and an index's values lie from −FURTHEST to FURTHEST.
pub const FURTHEST: i64 = 2_000_000_000;

// Bytes of a record.
pub const RECORD_SIZE: usize = 12;

// A phase's k: its angle is one turn, halved k times.
pub const MOST_HALVINGS: usize = 63;
