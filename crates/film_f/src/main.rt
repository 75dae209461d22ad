// Plays film F at its edges (document 01), starred and unstarred, through the public calls, and prints what they answer. The file
// `stdout` beside src/ was written from document 01 by hand: each line's comment there is the document's.
#![tactic(auto)]

use model::{Counts, Film, Head, Ran, Refusal, Relaxed};
use std::io;

fn counts(rt: &impl Print, word: &str, c: Counts) -> io::Result<()> {
    print!(rt; "{word} {} {} {}", c.visits, c.raises, c.accepted)
}

fn refused(rt: &impl Print, r: Refusal) -> io::Result<()> {
    let fault = r.fault;
    print!(rt; "REFUSED {} {}", fault.number(), r.place)
}

fn ran(rt: &impl Print, answer: Result<Ran, Refusal>) -> io::Result<()> {
    match answer {
        Ok(Ran::Done(c)) => counts(rt, "DONE", c),
        Ok(Ran::Stopped(c)) => counts(rt, "STOPPED", c),
        Ok(Ran::Over(at, c)) => {
            counts(rt, "OVER", c)?;
            print!(rt; " {at}")
        }
        Err(r) => refused(rt, r),
    }
}

// Film F: 1 row, 2 columns, weights 1 1, diagonals 206 51, link 27.
const WEIGHTS: [u16; 2] = [1, 1];

const DIAGONALS: [u32; 2] = [206, 51];

const RIGHTS: [u32; 2] = [27, 0];

const UPS: [u32; 2] = [0, 0];

fn film<'a>(ceiling: u32, sources: &'a [i64]) -> Film<'a> {
    Film {
        head: Head {
            rows: 1,
            columns: 2,
            ceiling,
        },
        weights: &WEIGHTS,
        diagonals: &DIAGONALS,
        rights: &RIGHTS,
        ups: &UPS,
        sources,
    }
}

// The numbers of a field or a proposal.
fn numbers(rt: &impl Print, xs: &[u32]) -> io::Result<()> {
    for x in xs {
        print!(rt; " {x}")?;
    }
    Ok(())
}

fn slack(rt: &impl Print, film: &Film, field: &[u32], at: usize) -> io::Result<()> {
    match problem::slack(film, field, at) {
        Ok(x) => print!(rt; " {x}"),
        Err(r) => refused(rt, r),
    }
}

// A run from a field: the answer, the field that it leaves and the two slacks.
fn play_on(
    rt: &impl Print,
    film: &Film,
    field: &mut [u32],
    budget: u32,
    order: u32,
    proposals: bool,
) -> io::Result<()> {
    ran(rt, run::run(film, field, budget, order, proposals))?;
    print!(rt; " :")?;
    numbers(rt, field)?;
    print!(rt; " :")?;
    slack(rt, film, field, 0)?;
    slack(rt, film, field, 1)?;
    println!(rt)
}

fn play(
    rt: &impl Print,
    ceiling: u32,
    sources: [i64; 2],
    mut field: [u32; 2],
    budget: u32,
    order: u32,
    proposals: bool,
) -> io::Result<()> {
    play_on(
        rt,
        &film(ceiling, &sources),
        &mut field,
        budget,
        order,
        proposals,
    )
}

fn margin(rt: &impl Print, film: &Film) -> io::Result<()> {
    print!(rt; "MARGIN")?;
    match line_estimate::margin(film) {
        Ok(k) => print!(rt; " {k}"),
        Err(r) => refused(rt, r),
    }
}

fn estimate(rt: &impl Print, film: &Film, field: &[u32], proposal: &mut [u32]) -> io::Result<()> {
    match line_estimate::estimate(film, field, 1, proposal) {
        Ok(()) => {
            print!(rt; " OFFER")?;
            numbers(rt, proposal)
        }
        Err(r) => refused(rt, r),
    }
}

fn propose(rt: &impl Print, film: &Film, field: &mut [u32], proposal: &[u32]) -> io::Result<()> {
    match line::propose(film, field, 1, proposal) {
        Ok(Some(n)) => print!(rt; " TAKEN {n}"),
        Ok(None) => print!(rt; " DECLINED"),
        Err(r) => refused(rt, r),
    }
}

fn relax(rt: &impl Print, film: &Film, field: &mut [u32]) -> io::Result<()> {
    match problem::relax(film, field, 0) {
        Ok(Relaxed::Quiet) => print!(rt; " QUIET"),
        Ok(Relaxed::Raised(p)) => print!(rt; " RAISED {p}"),
        Ok(Relaxed::Over(at)) => print!(rt; " OVER {at}"),
        Err(r) => refused(rt, r),
    }
}

// The margin, the estimate of the row from the field, its proposal, and the relaxation of the first cell.
fn steps_on(rt: &impl Print, film: &Film) -> io::Result<()> {
    let mut field = [0u32, 0];
    let mut proposal = [0u32, 0];
    margin(rt, film)?;
    estimate(rt, film, &field, &mut proposal)?;
    propose(rt, film, &mut field, &proposal)?;
    relax(rt, film, &mut field)?;
    println!(rt)
}

fn steps(rt: &impl Print, ceiling: u32, sources: [i64; 2]) -> io::Result<()> {
    steps_on(rt, &film(ceiling, &sources))
}

// Film F's runs, each from a field of its own.
fn runs(rt: &impl Print) -> io::Result<()> {
    play(rt, 100, [-200, -100], [0, 0], 4000000, 0, false)?;
    play(rt, 100, [-200, -100], [0, 0], 4000000, 1, false)?;
    play(rt, 100, [-200, -100], [0, 0], 4000000, 2, false)?;
    play(rt, 100, [-200, -100], [0, 0], 5, 0, false)?;
    play(rt, 100, [-200, -100], [0, 0], 6, 0, false)?;
    play(rt, 100, [-200, -100], [2, 4], 2, 0, false)?;
    play(rt, 4, [-200, -100], [0, 0], 4000000, 0, false)?;
    play(rt, 3, [-200, -100], [0, 0], 4000000, 0, false)?;
    play(rt, 100, [0, 0], [0, 0], 4000000, 0, false)?;
    play(rt, 100, [200, 100], [0, 0], 4000000, 0, false)?;
    play(rt, 100, [-200, -100], [3, 0], 4000000, 0, false)?;
    play(rt, 5000, [-200000, -100000], [0, 0], 4000000, 0, true)?;
    play(rt, 100, [-200, -100], [0, 0], 0, 0, true)?;
    play(rt, 100, [-200, -100], [0, 0], 6, 3, false)?;
    play(rt, 100, [-200, -100], [0, 101], 6, 0, false)
}

fn main(rt: HostRuntime) -> io::Result<()> {
    runs(&rt)?;
    steps(&rt, 100, [-200, -100])?;
    steps(&rt, 5000, [-200000, -100000])
}
