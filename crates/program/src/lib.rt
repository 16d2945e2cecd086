// The step program: a record read into lent arrays, one step, and what is printed of it; the program's own arrays; its input and
// output.
#![tactic(auto)]

ghost use Rattle.std.specs.Prelude.{◌≡◌, [], ◌≤◌, ◌<◌, length, take, IfOk};
ghost use Rattle.std.specs.Io.{ReadsAtMost};
ghost use Rattle.std.specs.Io.KnownBytes.{Consumes, IsAtEnd};
ghost use Rattle.model.specs.State.{WithinLimits, state_of, after, lent_state, slices_before, slices_after};
ghost use Rattle.model.specs.Program.{state_lines, program_output, Printed, ProgramPromise};
ghost use Rattle.text.specs.Sink.{puts};
ghost use Rattle.program.specs.Stepped.{Printable, Ready, Stepped, SteppedParts};

use model::{Lent, LentMut, Parameters, Refusal, StepError};
use std::io;
use std::io::Read;
use text::Sink;

// Prints a state: its total depth, then each cell. Bottom and barriers do not enter, and nothing is asked of them.
fn print_state(s: &Lent, out: &mut Sink<'_>)
    requires { Printable (lent_state s.now) }
    ensures { out.new ≡ puts (state_lines (lent_state s.now)) out.old }
{
    out.put_total(scheme_totals::sum_depths(s.h));
    out.put_cells(s.p.w, s.h, s.u, s.v);
}

// Steps a state within the limits, and prints what comes of it. Its slices are lent apart, as parts of fields: of a part in a struct's field
// the checker knows no more than its length once it is back. The 6 has no `Refusal`, and stands in the model's `step_lines` too.
fn step_state(
    p: Parameters,
    h: &mut [i64],
    b: &[i64],
    u: &mut [i64],
    v: &mut [i64],
    barriers: &[u8],
    inflow: &[i64],
    work: &mut [i64],
    out: &mut Sink<'_>,
)
    requires { WithinLimits (state_of p h.old b.now u.old v.old barriers.now) }
    ensures { let s = state_of p h.old b.now u.old v.old barriers.now in
        Stepped s inflow.now work.old (after p h b u v barriers) work.new
        out.old out.new }
{
    let mut s = LentMut {
        p,
        h,
        b,
        u,
        v,
        barriers,
    };
    match step_run::step_within(&mut s, inflow, work) {
        Ok(()) => print_state(&s.lent(), out),
        Err(StepError::Refused(refusal)) => out.put_refused(answers::number_of(refusal)),
        Err(StepError::OutOfBounds(_)) => out.put_refused(6),
    }
}

// The same of the state in the first w·n places of lent fields, which are lent apart for the same reason.
fn step_parts(
    p: Parameters,
    h: &mut [i64],
    b: &[i64],
    u: &mut [i64],
    v: &mut [i64],
    barriers: &[u8],
    inflow: &[i64],
    work: &mut [i64],
    out: &mut Sink<'_>,
)
    requires { Ready p (record { h = h.old; b = b.now; u = u.old; v = v.old; barriers = barriers.now }) }
    ensures { SteppedParts p (record { h = h.old; b = b.now; u = u.old; v = v.old; barriers = barriers.now }) inflow.now work.old
        out.old h.new u.new v.new work.new
        out.new }
{
    let m = p.w * p.n;
    let k = m.min(inflow.len());
    step_state(
        p,
        &mut h[..m],
        &b[..m],
        &mut u[..m],
        &mut v[..m],
        &barriers[..m],
        &inflow[..k],
        work,
        out,
    )
}

// A record read into h, b, u, v and the barriers, one step of it with the inflow lent, and what is printed of that. Answers how many bytes
// of out it has filled. It rules out, for instance: the total before the step; a refused step that has printed cells; a grid cut to the
// room lent. The fields are lent apart and not as a state, since the reader fills all five: there is no state before.
pub fn print_step(
    input: &[u8],
    h: &mut [i64],
    b: &mut [i64],
    u: &mut [i64],
    v: &mut [i64],
    barriers: &mut [u8],
    inflow: &[i64],
    work: &mut [i64],
    out: &mut [u8],
) -> usize
    ensures { ProgramPromise input.now (slices_before h b u v barriers) inflow.now
        work.old out.old result (slices_after h b u v barriers) work.new
        out.new }
{
    let mut sink = Sink::new(out);
    if input.len() >= 65536 {
        let offset = input.len();
        sink.put_refused(answers::number_of(Refusal::Record { offset }));
        return sink.count();
    }
    match record_read::read(input, h, b, u, v, barriers) {
        Ok(header) => step_parts(
            header.parameters,
            h,
            b,
            u,
            v,
            barriers,
            inflow,
            work,
            &mut sink,
        ),
        Err(refusal) => sink.put_refused(answers::number_of(refusal)),
    }
    sink.count()
}

// What the step program prints for an input, over arrays of its own: fields for up to 1,024 cells, so that a larger grid is an 8. The
// arrays are fixed, since nothing here takes memory from a heap. It rules out, for instance: a grid of 1,024 cells refused; an inflow of 1
// in every cell.
pub fn output(input: &[u8], out: &mut [u8]) -> usize
    ensures { Printed (program_output input.now) out.old result out.new }
{
    let mut h = [0; 1024];
    let mut b = [0; 1024];
    let mut u = [0; 1024];
    let mut v = [0; 1024];
    let mut barriers = [0u8; 1024];
    let inflow = [0; 1024];
    let mut work = [0; 8192];
    print_step(
        input,
        &mut h,
        &mut b,
        &mut u,
        &mut v,
        &mut barriers,
        &inflow,
        &mut work,
        out,
    )
}

// All that the program prints, in an array that has room for it (`OutputClaim`).
fn whole_output(input: &[u8], out: &mut [u8; 32768]) -> usize
    ensures { (result ≤ length out.new)
        × (take result out.new ≡ program_output input.now) }
{
    output(input, out)
}

// Reads until buf is full or the input ends, and answers how many bytes of buf it has filled. A read may give fewer bytes than it has room
// for, so no `for` says how many reads there are; the library's `read_exact` says too little where the input ends first. It rules out, for
// instance: an input cut after its first read; a byte lost between two reads.
fn read_full<R: Read>(reader: &mut R, buf: &mut [u8]) -> io::Result<usize>
    ensures bound { ReadsAtMost result buf.new }
    ensures bytes { IfOk result (λ n. Consumes (R.remaining reader.old) (R.remaining reader.new) (take n buf.new)) }
    ensures end { IfOk result (λ n. n < length buf.new → IsAtEnd (R.remaining reader.new)) }
{
    let mut count = 0;
    while count < buf.len() {
        let n = reader.read(&mut buf[count..])?;
        if n == 0 {
            return Ok(count);
        }
        count += n;
    }
    Ok(count)
}

// Reads standard input, up to the byte that makes it too long, and writes what the program prints. Where a read fails, nothing is
// written. Both arrays are fixed: no heap.
pub fn run(rt: &(impl Input + Print)) -> io::Result<()> {
    let mut input = [0u8; 65536];
    let count = read_full(&mut rt.reader(), &mut input)?;
    let mut out = [0u8; 32768];
    let printed = whole_output(&input[..count], &mut out);
    rt.write_all(&out[..printed])
}
