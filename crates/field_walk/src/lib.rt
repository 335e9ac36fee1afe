// A walk over the fields of a list, forward or backward, in constant space. Backward, positions of fields are kept in a lent
// array: all of them where there is room, else some, closer to each other toward the end.
#![tactic(auto)]

ghost use Rattle.std.specs.Prelude.{◌≡◌, true, false, ◌<◌, ◌≤◌, length};
ghost use Rattle.language.specs.Limits.{longest_program};
ghost use Rattle.field_walk.specs.Walks.{most_kept, PositionsKept, Lasts, KeepsLast, Walking, Sought, Starting, passed_of, whole_of};

// How many positions are kept at most.
pub const KEPT: usize = 24;

// What is left of a list: the bytes from `at` to `to`. `here` is where the next field begins; `depth` positions are kept, and
// from the one numbered `sure` on they are those of all fields.
#[derive(Clone, Copy, Debug, PartialEq, Eq)]
pub struct Walk {
    pub at: usize,
    pub to: usize,
    pub here: usize,
    pub depth: usize,
    pub sure: usize,
}

// How many positions are kept, and from which on they are sure.
#[derive(Clone, Copy, Debug, PartialEq, Eq)]
pub struct Held {
    pub depth: usize,
    pub sure: usize,
}

// From where on the next position after `at` is kept, when so many are and not all fit: a sixth of what is left further, later
// a third; the last place is for the last field.
fn spaced(at: usize, to: usize, depth: usize) -> usize
    requires { (at < to) × (to ≤ longest_program) }
{
    if depth < 14 {
        return at + (to - at) / 6;
    }
    if depth < KEPT - 1 {
        return at + (to - at) / 3;
    }
    to
}

// The same; at once while all are kept.
fn later(all: bool, at: usize, to: usize, depth: usize) -> usize
    requires { (at < to) × (to ≤ longest_program) }
{
    if all {
        return 0;
    }
    spaced(at, to, depth)
}

// Whether a position is not kept.
fn skipped(all: bool, at: usize, due: usize) -> bool
    ensures { result ≡ true → all ≡ false }
{
    !all && at < due
}

// Keeps the last field's position unless it is kept already: above the others, or without room in place of the last of them.
fn keep_last(cuts: &mut [u16; KEPT], at: usize, d: usize, first: usize, all: bool) -> Held
    requires { (1 ≤ d) × (d ≤ most_kept) × (at ≤ longest_program) }
    ensures { KeepsLast cuts.old at d first all cuts.new result.depth result.sure }
{
    if all {
        return Held {
            depth: d,
            sure: first,
        };
    }
    let top = d - 1;
    if usize::from(cuts[top]) == at {
        return Held {
            depth: d,
            sure: top,
        };
    }
    if d < KEPT {
        cuts[d] = at as u16;
        return Held {
            depth: d + 1,
            sure: d,
        };
    }
    cuts[top] = at as u16;
    Held {
        depth: d,
        sure: top,
    }
}

// Finds the last field from the last kept position on. It is kept, and so are some on the way to it, or all. At a bad header
// none is.
fn last(bytes: &[u8], from: usize, to: usize, cuts: &mut [u16; KEPT], depth: usize) -> Option<Held>
    requires { (to ≤ length bytes.now) × (to ≤ longest_program) × (from < to) × (depth ≤ most_kept) × PositionsKept bytes.now from cuts.old depth to }
    ensures { Lasts bytes.now from to cuts.new result }
{
    let mut at = usize::from(cuts[depth - 1]);
    let mut d = depth;
    let mut due: usize = 0;
    let mut all = true;
    while let Ok(header) = fields::header_at(bytes, at, to) {
        let next = header.next;
        if next == to {
            return Some(keep_last(cuts, at, d, depth - 1, all));
        }
        at = next;
        if skipped(all, next, due) {
            continue;
        }
        if d < KEPT {
            cuts[d] = next as u16;
            d += 1;
            due = later(all, next, to, d);
            continue;
        }
        all = false;
        if depth < KEPT {
            cuts[depth] = next as u16;
            d = depth + 1;
            due = spaced(next, to, d);
            continue;
        }
        due = to;
    }
    None
}

// Begins a walk of the list from `from` to `to`, unless it is to be walked backward and has a bad header.
pub fn begin(
    bytes: &[u8],
    from: usize,
    to: usize,
    reversed: bool,
    cuts: &mut [u16; KEPT],
) -> Option<Held>
    requires { (from ≤ to) × (to ≤ length bytes.now) × (to ≤ longest_program) }
    ensures { Starting bytes.now from to reversed cuts.new result }
{
    if !reversed || to <= from {
        return Some(Held { depth: 0, sure: 0 });
    }
    cuts[0] = from as u16;
    last(bytes, from, to, cuts, 1)
}

// All of a list, so many positions of which are kept.
pub fn whole(from: usize, to: usize, depth: usize, sure: usize) -> Walk
    ensures { result ≡ whole_of from to depth sure }
{
    Walk {
        at: from,
        to,
        here: from,
        depth,
        sure,
    }
}

// Finds the next field.
pub fn seek(bytes: &[u8], w: Walk, reversed: bool, cuts: &mut [u16; KEPT]) -> Walk
    requires { Walking bytes.now reversed w cuts.old × (w.at < w.to) × (w.to ≤ longest_program) }
    ensures { Sought bytes.now reversed w result cuts.new }
{
    if !reversed {
        return Walk { here: w.at, ..w };
    }
    if w.sure < w.depth {
        let depth = w.depth - 1;
        return Walk {
            here: usize::from(cuts[depth]),
            depth,
            ..w
        };
    }
    let held = last(bytes, w.at, w.to, cuts, w.depth).unwrap();
    let depth = held.depth - 1;
    Walk {
        here: usize::from(cuts[depth]),
        depth,
        sure: held.sure,
        ..w
    }
}

// Past the next field, which ends at `end`.
pub fn passed(w: Walk, reversed: bool, end: usize) -> Walk
    ensures { result ≡ passed_of w reversed end }
{
    if reversed {
        return Walk { to: w.here, ..w };
    }
    Walk { at: end, ..w }
}
