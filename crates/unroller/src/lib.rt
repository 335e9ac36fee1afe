// The unroller's cycle: statements, lists, rounds and calls.
#![tactic(auto)]

ghost use Rattle.std.specs.Prelude.{◌≡◌, true, ◌+◌, ◌-◌, ◌<◌, ◌≤◌, length, get_or, take};
ghost use Rattle.std.proofs.Math.Seq.{slice};
ghost use Rattle.language.specs.Limits.{longest_program};
ghost use Rattle.fields.specs.CallNumber.{is_call_tag};
ghost use Rattle.indexes.specs.Values.{most_values};
ghost use Rattle.records.specs.Outcomes.{Does};
ghost use Rattle.gates.specs.Gates.{frame_in, Enterable};
ghost use Rattle.calls.specs.Families.{Tabled};
ghost use Rattle.operands.specs.Meanings.{operands_of};
ghost use Rattle.unroller.specs.CalledFamilies.{Calls};
ghost use Rattle.unroller.specs.Runs.{Ready, Often, Turns, Turned, Completes, HasBody, Nestable, Inside, one_run, times_run, kept_in};

use calls::OPERAND_NUMBERS;
use fields::Named;
use gates::Mode;
use indexes::VALUES;
use limits::MOST_FAMILIES;
use operands::{REGISTER_NUMBERS, Scope};
use records::{State, Stop};

// Where the table says that the family n is.
fn listed(table: &[u16], n: u16) -> usize
    requires { n < length table.now }
    ensures { result ≡ get_or table.now n 0 }
{
    let i = usize::from(n);
    usize::from(table[i])
}

// The family that the call with this tag and this content calls, and where its arguments begin: the family that it names, or the
// one that a parameter stands for.
fn called_family(
    bytes: &[u8],
    from: usize,
    to: usize,
    tag: u8,
    scope: Scope,
    regs: &[u16; REGISTER_NUMBERS],
) -> Option<Named>
    requires { (from ≤ to) × (to ≤ length bytes.now) }
    ensures { Calls tag from (slice from to bytes.now) (operands_of scope regs.now) result }
{
    let Ok(named) = fields::called_number(bytes, from, to, tag) else {
        return None;
    };
    if tag != fields::PARAMETER_CALL {
        return Some(named);
    }
    let number = operands::family_of(scope, regs, usize::from(named.number))?;
    Some(Named {
        number,
        next: named.next,
    })
}

// Begins the round i of a list: of a loop it takes a step and sets the loop's variable, the last of the values in scope.
fn begin_round(
    place: usize,
    start: i64,
    i: usize,
    looping: bool,
    vars: &mut [i32; VALUES],
    mode: Mode,
    st: State,
) -> Result<State, Stop>
    requires place_le_longest_program { (place ≤ longest_program) × (mode.variables ≤ most_values) }
    requires turns { Turns looping mode start i }
    ensures { Turned looping mode place start i vars.old vars.new st result }
{
    if !looping {
        return Ok(st);
    }
    let t = records::take_step(mode.limit, place, st)?;
    let last = usize::from(mode.variables) - 1;
    vars[last] = gates::turn(mode.reversed, start, i);
    Ok(t)
}

// A reverse or a for whose step is taken: where its content begins, its tag, what stays in it, and the state.
#[derive(Clone, Copy)]
pub struct Nested {
    pub from: usize,
    pub tag: u8,
    pub mode: Mode,
    pub st: State,
}

// The innermost of reverses that hold nothing but one reverse or for: enters them one by one, with their steps. Where one cannot be
// entered, it is what the run of its list finds.
fn inmost(bytes: &[u8], base: usize, to: usize, e: Nested) -> Nested
    requires { Nestable bytes.now base to e }
    ensures { Inside bytes.now base to e result }
{
    let mut r = e;
    while r.tag == fields::REVERSE {
        let at = r.from;
        let Ok(header) = fields::header_at(bytes, at, to) else {
            return r;
        };
        let tag = header.tag;
        if header.next < to || tag < fields::REVERSE || fields::FOR < tag {
            return r;
        }
        let from = at + 3;
        let place = base + at;
        let mode = gates::inner(r.mode, fields::REVERSE);
        let Ok(st) = gates::enter(bytes, from, to, tag, place, mode, r.st) else {
            return r;
        };
        r = Nested {
            from,
            tag,
            mode,
            st,
        };
    }
    r
}

// Runs the statement with this tag and the content from `from` to `to`, whose tag is at `place` of the program.
#[cycle(run_call_run_list_run_rounds_run_statement)]
fn run_statement(
    bytes: &[u8],
    base: usize,
    from: usize,
    to: usize,
    place: usize,
    tag: u8,
    vars: &mut [i32; VALUES],
    scope: Scope,
    regs: &[u16; REGISTER_NUMBERS],
    program: &[u8],
    table: &[u16; MOST_FAMILIES],
    mode: Mode,
    st: State,
    out: &mut [u8],
) -> Result<State, Stop>
    requires ready { Ready mode base from to (length bytes.now) place }
    requires from_value { base + from ≡ place + 3 }
    requires tabled { Tabled program.now table.now mode.families_visible }
    ensures { Does out.old st out.new result (one_run mode (length out.old) place tag (slice from to bytes.now) program.now (frame_in mode (take mode.variables vars.old) scope regs.now)) × (take mode.variables vars.new ≡ take mode.variables vars.old) }
{
    let s = gates::enter(bytes, from, to, tag, place, mode, st)?;
    if phases::is_action(tag) {
        return phases::act(bytes, from, to, tag, place, vars, scope, regs, mode, s, out);
    }
    if fields::is_call(tag) {
        return run_call(
            bytes, base, from, to, place, tag, vars, scope, regs, program, table, mode, s, out,
        );
    }
    run_rounds(
        bytes, base, from, to, place, tag, vars, scope, regs, program, table, mode, s, out,
    )
}

// Runs the body of the reverse or the for with this content, whose step is taken.
#[cycle(run_call_run_list_run_rounds_run_statement)]
fn run_rounds(
    bytes: &[u8],
    base: usize,
    from: usize,
    to: usize,
    place: usize,
    tag: u8,
    vars: &mut [i32; VALUES],
    scope: Scope,
    regs: &[u16; REGISTER_NUMBERS],
    program: &[u8],
    table: &[u16; MOST_FAMILIES],
    mode: Mode,
    st: State,
    out: &mut [u8],
) -> Result<State, Stop>
    requires ready { Ready mode base from to (length bytes.now) place }
    requires from_value { base + from ≡ place + 3 }
    requires tabled { Tabled program.now table.now mode.families_visible }
    requires enterable { Enterable mode tag (slice from to bytes.now) × HasBody tag }
    ensures { Completes mode tag (slice from to bytes.now) out.old st out.new result (one_run mode (length out.old) place tag (slice from to bytes.now) program.now (frame_in mode (take mode.variables vars.old) scope regs.now)) × (take mode.variables vars.new ≡ take mode.variables vars.old) }
{
    let e = inmost(
        bytes,
        base,
        to,
        Nested {
            from,
            tag,
            mode,
            st,
        },
    );
    let own = e.mode;
    let s = e.st;
    let past = base + e.from;
    let here = past - 3;
    let many = usize::from(own.variables);
    let repeats = gates::repeats_of(bytes, e.from, to, e.tag, vars, many, own.reversed).map_err(
        |fault| gates::stop(fault, here, s),
    )?;
    let n = gates::inner(own, e.tag);
    run_list(
        bytes,
        base,
        repeats.body,
        to,
        here,
        repeats.start,
        repeats.total,
        e.tag == fields::FOR,
        vars,
        scope,
        regs,
        program,
        table,
        n,
        s,
        out,
    )
}

// Runs a list so many times: once, or in rounds of the for at `place`.
#[cycle(run_call_run_list_run_rounds_run_statement)]
pub fn run_list(
    bytes: &[u8],
    base: usize,
    from: usize,
    to: usize,
    place: usize,
    start: i64,
    total: usize,
    looping: bool,
    vars: &mut [i32; VALUES],
    scope: Scope,
    regs: &[u16; REGISTER_NUMBERS],
    program: &[u8],
    table: &[u16; MOST_FAMILIES],
    mode: Mode,
    st: State,
    out: &mut [u8],
) -> Result<State, Stop>
    requires ready { Ready mode base from to (length bytes.now) place }
    requires tabled { Tabled program.now table.now mode.families_visible }
    requires often { Often looping mode start total }
    ensures { Does out.old st out.new result (times_run looping mode (length out.old) base from to place start total bytes.now program.now (frame_in mode (take (kept_in mode looping) vars.old) scope regs.now)) × (take (kept_in mode looping) vars.new ≡ take (kept_in mode looping) vars.old) }
{
    let reversed = mode.reversed;
    let mut cuts = [0u16; field_walk::KEPT];
    let mut w = field_walk::whole(to, to, 0, 0);
    let mut i: usize = 0;
    let mut s = st;
    loop {
        if w.to <= w.at {
            if total <= i {
                return Ok(s);
            }
            s = begin_round(place, start, i, looping, vars, mode, s)?;
            let Some(held) = field_walk::begin(bytes, from, to, reversed, &mut cuts) else {
                return Err(Stop::Stuck);
            };
            w = field_walk::whole(from, to, held.depth, held.sure);
            i += 1;
            continue;
        }
        w = field_walk::seek(bytes, w, reversed, &mut cuts);
        let here = w.here;
        let Ok(header) = fields::header_at(bytes, here, w.to) else {
            return Err(Stop::Stuck);
        };
        let content = here + 3;
        let at = base + here;
        s = run_statement(
            bytes,
            base,
            content,
            header.next,
            at,
            header.tag,
            vars,
            scope,
            regs,
            program,
            table,
            mode,
            s,
            out,
        )?;
        w = field_walk::passed(w, reversed, header.next);
    }
}

// Runs the call with this tag and this content, whose step is taken: the body of the family that it calls.
#[cycle(run_call_run_list_run_rounds_run_statement)]
fn run_call(
    bytes: &[u8],
    base: usize,
    from: usize,
    to: usize,
    place: usize,
    tag: u8,
    vars: &[i32; VALUES],
    scope: Scope,
    regs: &[u16; REGISTER_NUMBERS],
    program: &[u8],
    table: &[u16; MOST_FAMILIES],
    mode: Mode,
    st: State,
    out: &mut [u8],
) -> Result<State, Stop>
    requires ready { Ready mode base from to (length bytes.now) place }
    requires from_value { base + from ≡ place + 3 }
    requires tabled { Tabled program.now table.now mode.families_visible }
    requires enterable { Enterable mode tag (slice from to bytes.now) × (is_call_tag tag ≡ true) }
    ensures { Completes mode tag (slice from to bytes.now) out.old st out.new result (one_run mode (length out.old) place tag (slice from to bytes.now) program.now (frame_in mode (take mode.variables vars.now) scope regs.now)) }
{
    let Some(called) = called_family(bytes, from, to, tag, scope, regs) else {
        return Err(Stop::Stuck);
    };
    let number = called.number;
    if mode.families_visible <= number {
        return Err(Stop::Stuck);
    }
    let at = listed(table, number);
    let many = usize::from(mode.variables);
    let mut sizes = [0i32; VALUES];
    let mut given = [0u16; OPERAND_NUMBERS];
    let taken = calls::arguments(
        bytes,
        called.next,
        to,
        program,
        at,
        vars,
        many,
        scope,
        regs,
        &mut sizes,
        &mut given,
    )
    .map_err(|fault| gates::stop(fault, place, st))?;
    let body = calls::body_of(program, at, taken.start);
    let size = body.len();
    let inner = gates::entered(mode, number, program[at + 3]);
    run_list(
        body,
        taken.start,
        0,
        size,
        place,
        0,
        1,
        false,
        &mut sizes,
        calls::scope_of(&given, taken.count),
        regs,
        program,
        table,
        inner,
        st,
        out,
    )
}
