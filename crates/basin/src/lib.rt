// The C interface: thin functions over the proved calls, for Rust and C (include/basin.h). A slice crosses as pointer and length. What is
// told crosses as a pointer alone, to one number, three or eight, so that no call has too little room for it. Of the eight numbers of an
// answer the first is the refusal's number, 0 for none, which is also returned; the values that belong to it follow, and 0 in the other
// places. Any numbers and any lengths may come in.
#![tactic(auto)]

ghost use Rattle.std.specs.Prelude.{◌≡◌};
ghost use Rattle.model.specs.State.{state_of, before, after, slices_before, slices_after};
ghost use Rattle.model.specs.Promises.{TotalDepthPromise, TotalEnergyPromise};
ghost use Rattle.basin.specs.FromC;
ghost use Rattle.basin.specs.FromC.{VorticityFromC, TendenciesFromC, StepFromC, RunFromC, TotalFromC, WriteFromC};
ghost use Rattle.basin.specs.FromC.{ReadFromC, CompareFromC, ProbeFromC, ProbeGridFromC, roundable, Rounded, version};

use answers::Numbered;
use integers::Range;
use model::{Lent, LentMut, Parameters, ProbeAnswer, Timestamp};

// The parameters of a state, from the six numbers that a C function takes for them.
fn parameters(w: usize, n: usize, kind: u8, g: i64, c: i64, r: i64) -> Parameters
    ensures { result ≡ FromC.parameters w n kind g c r }
{
    Parameters {
        w,
        n,
        kind,
        g,
        c,
        r,
    }
}

// ---- potential vorticity and tendencies

// Each is the proved call, its answer told in eight numbers. They rule out, for instance: done told as 1; du and dv swapped.

#[unsafe(no_mangle)]
pub extern "C" fn basin_potential_vorticity(
    w: usize,
    n: usize,
    kind: u8,
    g: i64,
    c: i64,
    r: i64,
    h: &[i64],
    b: &[i64],
    u: &[i64],
    v: &[i64],
    barriers: &[u8],
    q: &mut [i64],
    answer: &mut [u64; 8],
) -> u64
    ensures { VorticityFromC (before (FromC.parameters w n kind g c r) h b u v barriers) q.old q.new result
        answer.new }
{
    let s = Lent {
        p: parameters(w, n, kind, g, c, r),
        h,
        b,
        u,
        v,
        barriers,
    };
    let x = scheme_tendencies::potential_vorticity(&s, q);
    answers::tell(answer, x.numbers())
}

#[unsafe(no_mangle)]
pub extern "C" fn basin_tendencies(
    w: usize,
    n: usize,
    kind: u8,
    g: i64,
    c: i64,
    r: i64,
    h: &[i64],
    b: &[i64],
    u: &[i64],
    v: &[i64],
    barriers: &[u8],
    q: &[i64],
    dh: &mut [i64],
    du: &mut [i64],
    dv: &mut [i64],
    answer: &mut [u64; 8],
) -> u64
    ensures { TendenciesFromC (before (FromC.parameters w n kind g c r) h b u v barriers) q.now dh.old
        du.old dv.old dh.new du.new dv.new result
        answer.new }
{
    let s = Lent {
        p: parameters(w, n, kind, g, c, r),
        h,
        b,
        u,
        v,
        barriers,
    };
    let x = scheme_tendencies::tendencies(&s, q, dh, du, dv);
    answers::tell(answer, x.numbers())
}

// ---- the same in doubles

// Each is the proved call, told in eight numbers: after 0, 0 for exact and 1 for near. The doubles of a cell go into three lent ones, which a
// refusal leaves. They rule out, for instance: near told as exact; Tu and Tv swapped; a refusal that clears the doubles.

#[unsafe(no_mangle)]
pub extern "C" fn basin_probe(
    w: usize,
    n: usize,
    kind: u8,
    g: i64,
    c: i64,
    r: i64,
    h: &[i64],
    b: &[i64],
    u: &[i64],
    v: &[i64],
    barriers: &[u8],
    q: &[i64],
    cell: usize,
    doubles: &mut [f64; 3],
    answer: &mut [u64; 8],
) -> u64
    ensures { ProbeFromC (before (FromC.parameters w n kind g c r) h b u v barriers) q.now cell
        doubles.old doubles.new result answer.new }
{
    let s = Lent {
        p: parameters(w, n, kind, g, c, r),
        h,
        b,
        u,
        v,
        barriers,
    };
    let x = scheme_probe::probe(&s, q, cell);
    match x {
        ProbeAnswer::Exact(h, u, v) => *doubles = [h, u, v],
        ProbeAnswer::Near(h, u, v) => *doubles = [h, u, v],
        ProbeAnswer::Refused(_) => {}
    }
    answers::tell(answer, x.numbers())
}

#[unsafe(no_mangle)]
pub extern "C" fn basin_probe_grid(
    w: usize,
    n: usize,
    kind: u8,
    g: i64,
    c: i64,
    r: i64,
    h: &[i64],
    b: &[i64],
    u: &[i64],
    v: &[i64],
    barriers: &[u8],
    q: &[i64],
    dh: &mut [f64],
    du: &mut [f64],
    dv: &mut [f64],
    answer: &mut [u64; 8],
) -> u64
    ensures { ProbeGridFromC (before (FromC.parameters w n kind g c r) h b u v barriers) q.now dh.old
        du.old dv.old dh.new du.new dv.new result
        answer.new }
{
    let s = Lent {
        p: parameters(w, n, kind, g, c, r),
        h,
        b,
        u,
        v,
        barriers,
    };
    let x = scheme_probe::probe_grid(&s, q, dh, du, dv);
    answers::tell(answer, x.numbers())
}

// ---- step and run

// Each is the proved call, on the lent state, its answer told in eight numbers. They rule out, for instance: the cell of a refusal 6
// told before its field; the steps done told before the pass, field and cell of the 6 that stopped the run.

#[unsafe(no_mangle)]
pub extern "C" fn basin_step(
    w: usize,
    n: usize,
    kind: u8,
    g: i64,
    c: i64,
    r: i64,
    h: &mut [i64],
    b: &[i64],
    u: &mut [i64],
    v: &mut [i64],
    barriers: &[u8],
    inflow: &[i64],
    work: &mut [i64],
    answer: &mut [u64; 8],
) -> u64
    ensures { StepFromC (state_of (FromC.parameters w n kind g c r) h.old b.now u.old v.old barriers.now) inflow.now work.old
        (after (FromC.parameters w n kind g c r) h b u v barriers) work.new result answer.new }
{
    let mut s = LentMut {
        p: parameters(w, n, kind, g, c, r),
        h,
        b,
        u,
        v,
        barriers,
    };
    let x = step_run::step(&mut s, inflow, work);
    answers::tell(answer, x.numbers())
}

#[unsafe(no_mangle)]
pub extern "C" fn basin_run(
    w: usize,
    n: usize,
    kind: u8,
    g: i64,
    c: i64,
    r: i64,
    h: &mut [i64],
    b: &[i64],
    u: &mut [i64],
    v: &mut [i64],
    barriers: &[u8],
    inflow: &[i64],
    steps: u64,
    work: &mut [i64],
    answer: &mut [u64; 8],
) -> u64
    ensures { RunFromC (state_of (FromC.parameters w n kind g c r) h.old b.now u.old v.old barriers.now) inflow.now steps work.old
        (after (FromC.parameters w n kind g c r) h b u v barriers) work.new result answer.new }
{
    let mut s = LentMut {
        p: parameters(w, n, kind, g, c, r),
        h,
        b,
        u,
        v,
        barriers,
    };
    let x = step_run::run(&mut s, inflow, steps, work);
    answers::tell(answer, x.numbers())
}

// ---- totals

// Each is the proved call: an accepted total goes into the lent number and 0 is told; a refusal is told in eight numbers, and leaves the
// lent number. They rule out, for instance: 0 told and no total; the total of b; a refusal that clears the number.

#[unsafe(no_mangle)]
pub extern "C" fn basin_total_depth(
    w: usize,
    n: usize,
    kind: u8,
    g: i64,
    c: i64,
    r: i64,
    h: &[i64],
    b: &[i64],
    u: &[i64],
    v: &[i64],
    barriers: &[u8],
    total: &mut i64,
    answer: &mut [u64; 8],
) -> u64
    ensures { TotalFromC (TotalDepthPromise (before (FromC.parameters w n kind g c r) h b u v barriers)) total.old
        total.new result answer.new }
{
    let s = Lent {
        p: parameters(w, n, kind, g, c, r),
        h,
        b,
        u,
        v,
        barriers,
    };
    let x = scheme_totals::total_depth(&s);
    *total = x.unwrap_or(*total);
    answers::tell(answer, x.numbers())
}

#[unsafe(no_mangle)]
pub extern "C" fn basin_total_energy(
    w: usize,
    n: usize,
    kind: u8,
    g: i64,
    c: i64,
    r: i64,
    h: &[i64],
    b: &[i64],
    u: &[i64],
    v: &[i64],
    barriers: &[u8],
    total: &mut i64,
    answer: &mut [u64; 8],
) -> u64
    ensures { TotalFromC (TotalEnergyPromise (before (FromC.parameters w n kind g c r) h b u v barriers)) total.old
        total.new result answer.new }
{
    let s = Lent {
        p: parameters(w, n, kind, g, c, r),
        h,
        b,
        u,
        v,
        barriers,
    };
    let x = scheme_totals::total_energy(&s);
    *total = x.unwrap_or(*total);
    answers::tell(answer, x.numbers())
}

// ---- the record

// Each is the proved call, its answer told in eight numbers: the writer's with the number of bytes; the reader's with w, n, kind, seconds
// and milliseconds, while G, c and R, which have a sign, go into three lent numbers, which a refusal leaves; the comparison's with 0 same,
// 1 first newer, 2 second newer, 3 conflict, or which record is refused. They rule out, for instance: the fields of a record swapped;
// the records swapped; G told in the place of c; a refusal that clears the three numbers.

#[unsafe(no_mangle)]
pub extern "C" fn basin_write(
    w: usize,
    n: usize,
    kind: u8,
    g: i64,
    c: i64,
    r: i64,
    h: &[i64],
    b: &[i64],
    u: &[i64],
    v: &[i64],
    barriers: &[u8],
    seconds: u64,
    milliseconds: u64,
    record: &mut [u8],
    answer: &mut [u64; 8],
) -> u64
    ensures { WriteFromC (before (FromC.parameters w n kind g c r) h b u v barriers) (FromC.timestamp seconds milliseconds)
        «record».old «record».new result answer.new }
{
    let s = Lent {
        p: parameters(w, n, kind, g, c, r),
        h,
        b,
        u,
        v,
        barriers,
    };
    let timestamp = Timestamp {
        seconds,
        milliseconds,
    };
    let x = record_write::write(&s, timestamp, record);
    answers::tell(answer, x.numbers())
}

#[unsafe(no_mangle)]
pub extern "C" fn basin_read(
    record: &[u8],
    h: &mut [i64],
    b: &mut [i64],
    u: &mut [i64],
    v: &mut [i64],
    barriers: &mut [u8],
    constants: &mut [i64; 3],
    answer: &mut [u64; 8],
) -> u64
    ensures { ReadFromC «record».now (slices_before h b u v barriers)
        (slices_after h b u v barriers)
        constants.old constants.new result answer.new }
{
    let x = record_read::read(record, h, b, u, v, barriers);
    if let Ok(header) = x {
        let p = header.parameters;
        *constants = [p.g, p.c, p.r];
    }
    answers::tell(answer, x.numbers())
}

#[unsafe(no_mangle)]
pub extern "C" fn basin_compare(first: &[u8], second: &[u8], answer: &mut [u64; 8]) -> u64
    ensures { CompareFromC first.now second.now result answer.new }
{
    let x = record_compare::compare(first, second);
    answers::tell(answer, x.numbers())
}

// ---- rounding

// Whether rnd takes the quotient a/b.
fn is_roundable(a: i64, b: i64) -> bool
    ensures { result ≡ roundable a b }
{
    let dividend = Range {
        least: -288230376151711744,
        most: 288230376151711744,
    };
    let divisor = Range {
        least: 1,
        most: 8796093022208,
    };
    dividend.contains(a) && divisor.contains(b)
}

// 01's rnd(a/b), or 4 where the quotient is out of its range. It rules out, for instance: the largest dividend refused; a refusal told
// as 5.
#[unsafe(no_mangle)]
pub extern "C" fn basin_rnd(a: i64, b: i64, rounded: &mut i64) -> u64
    ensures { Rounded a b rounded.old result rounded.new }
{
    if !is_roundable(a, b) {
        return 4;
    }
    *rounded = integers::rnd(a, b);
    0
}

// ---- version

// The version of this interface: 10,000 times major, 100 times minor, and patch. include/basin.h has the same number, so that a caller
// can see that header and library fit. It rules out, for instance: the number of the version before; 0.
#[unsafe(no_mangle)]
pub extern "C" fn basin_version() -> u64
    ensures { result ≡ version }
{
    800
}
