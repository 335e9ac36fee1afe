// Fills a map with the wires that the records in an output name, and counts them.
#![tactic(auto)]

ghost use Rattle.std.specs.Prelude.{◌≡◌, [], ◌+◌, ◌*◌, ◌≤◌, ◌<◌, length, take};
ghost use Rattle.language.specs.Limits.{record_size};
ghost use Rattle.written_records.specs.AnyBytes.{record_from, records_from};
ghost use Rattle.wire_map.specs.WireMap.{map_size, named_by, wires_named, touched_map, ones_over};
ghost use Rattle.wire_map.specs.Touching.{map_into};
ghost use Rattle.wire_map.specs.Marking.{marked, Marks, BitSet};

use limits::RECORD_SIZE;

// Bytes of a map, a bit for each wire.
pub const MAP_SIZE: usize = 8192;

// No wire: one past the last that a map has a bit for.
const NO_WIRE: usize = 65536;

// Sets every bit of the map to 0.
fn clear(map: &mut [u8])
    requires { map_size ≤ length map.old }
    ensures { map.new ≡ map_into map.old [] }
{
    map[..MAP_SIZE].fill(0);
}

// Sets the bit of a wire, where it is not set.
fn mark(wire: usize, map: &mut [u8])
    requires wire_bound { wire < 8 * map_size }
    requires map_size_in_bounds { map_size ≤ length map.old }
    ensures { map.new ≡ marked map.old wire }
{
    let at = wire / 8;
    let bit = 1u8 << (wire % 8);
    let before = map[at];
    let after = before | bit;
    if after != before {
        map[at] = after;
    }
}

// The same after a wire whose bit is set: the records of a list often name one wire after another.
fn mark_after(last: usize, wire: usize, map: &mut [u8])
    requires wire_bound { wire < 8 * map_size }
    requires map_size_in_bounds { map_size ≤ length map.old }
    requires bit_set { BitSet last map.old }
    ensures { map.new ≡ marked map.old wire }
{
    if wire == last {
        return;
    }
    mark(wire, map);
}

// Sets the bits of the wires that the record at a position names: cx, cphase and its inverse name two. Gives the first.
fn mark_record(output: &[u8], at: usize, last: usize, map: &mut [u8]) -> usize
    requires record_size_in_bounds { at + record_size ≤ length output.now }
    requires map_size_in_bounds { map_size ≤ length map.old }
    requires bit_set { BitSet last map.old }
    ensures marks { Marks map.old (named_by (record_from output.now at).action) map.new }
    ensures bit_set_2 { BitSet result map.new }
{
    let first = fields::two_bytes(output, at + 2);
    mark_after(last, first, map);
    let op = output[at];
    match op {
        4 | 9 | 10 => {
            mark(fields::two_bytes(output, at + 4), map);
            first
        }
        _ => first,
    }
}

// Sets the bits of the wires that so many records name.
fn mark_records(output: &[u8], records: usize, map: &mut [u8])
    requires records_in_bounds { record_size * records ≤ length output.now }
    requires map_size_in_bounds { map_size ≤ length map.old }
    ensures { Marks map.old (wires_named (records_from records output.now)) map.new }
{
    let mut last: usize = NO_WIRE;
    for i in 0..records {
        last = mark_record(output, RECORD_SIZE * i, last, map);
    }
}

// The count of ones over the map.
fn count_wires(map: &[u8]) -> u32
    requires { map_size ≤ length map.now }
    ensures { result ≡ ones_over (take map_size map.now) }
{
    map[..MAP_SIZE].iter().map(|byte| byte.count_ones()).sum()
}

// Fills the map with the wires that so many records name, and gives their number.
pub fn fill(output: &[u8], records: usize, map: &mut [u8]) -> u32
    requires records_in_bounds { record_size * records ≤ length output.now }
    requires map_size_in_bounds { map_size ≤ length map.old }
    ensures map_after { map.new ≡ map_into map.old (records_from records output.now) }
    ensures value { result ≡ ones_over (touched_map (records_from records output.now)) }
{
    clear(map);
    mark_records(output, records, map);
    count_wires(map)
}
