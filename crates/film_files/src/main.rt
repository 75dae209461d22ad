// Reads the film files that its arguments name, and prints for each the refusal, or the film, its coefficients, and whether
// writing what was read gives the file's own bytes. data/ has valid files of several sizes, with grid steps and without, some without weights (whose writer
// is lent a slice that is too short for the found ones), each refusal 1 to 9, 15 and 16 at several places, and files with two faults.
//
// data/, args and stdout are written by tests/film_files.py, from documents 01 and 02 alone: it shares no line with this program, works
// in Python's whole numbers, and each faulty file carries its refusal's number and place written by hand.
#![tactic(auto)]

use model::{Gauged, Numbers, Refusal};
use std::fmt::Display;
use std::rt::Files;
use std::{env, fs, io};

fn refused(rt: &impl Print, r: Refusal) -> io::Result<()> {
    let fault = r.fault;
    println!(rt; "REFUSED {} {}", fault.number(), r.place)
}

// A word, and the numbers of a list.
fn numbers<N: Copy + Display + Drop>(rt: &impl Print, word: &str, xs: &[N]) -> io::Result<()> {
    print!(rt; "{word}")?;
    for x in xs {
        print!(rt; " {x}")?;
    }
    println!(rt)
}

fn coefficients_in(
    rt: &impl Print,
    film: &Gauged,
    diagonals: &mut [u32],
    rights: &mut [u32],
    ups: &mut [u32],
    sources: &mut [i64],
) -> io::Result<()> {
    match coefficients::form(film, diagonals, rights, ups, sources) {
        Ok(()) => {
            numbers(rt, "DIAGONALS", diagonals)?;
            numbers(rt, "RIGHTS", rights)?;
            numbers(rt, "UPS", ups)?;
            numbers(rt, "SOURCES", sources)
        }
        Err(r) => refused(rt, r),
    }
}

fn coefficients(rt: &impl Print, film: &Gauged) -> io::Result<()> {
    let n = film.weights.len();
    if n > 1024 {
        return Ok(());
    }
    let mut diagonals = [0u32; 1024];
    let mut rights = [0u32; 1024];
    let mut ups = [0u32; 1024];
    let mut sources = [0i64; 1024];
    coefficients_in(
        rt,
        film,
        &mut diagonals[..n],
        &mut rights[..n],
        &mut ups[..n],
        &mut sources[..n],
    )
}

fn write_back(rt: &impl Print, film: &Gauged, file: &[u8], out: &mut [u8]) -> io::Result<()> {
    match file::write(film, out) {
        Ok(()) => {
            if file == out {
                println!(rt; "WRITES BACK THE SAME")
            } else {
                println!(rt; "WRITES BACK ANOTHER FILE")
            }
        }
        Err(r) => refused(rt, r),
    }
}

fn show_film(rt: &impl Print, film: &Gauged, file: &[u8]) -> io::Result<()> {
    let head = film.head;
    let wedge = film.wedge;
    print!(rt;
        "FILM {} {} {} {wedge}",
        head.rows, head.columns, head.ceiling
    )?;
    if let Some(factors) = film.steps {
        print!(rt; " ALONG {} ACROSS {}", factors.along, factors.across)?;
    }
    println!(rt)?;
    coefficients(rt, film)?;
    let n = file.len();
    if n > 4096 {
        return Ok(());
    }
    let mut out = [0u8; 4096];
    write_back(rt, film, file, &mut out[..n])
}

// The parts of the buffers that the film uses. What the reader accepts is within all these bounds.
fn used(
    rt: &impl Print,
    read: Numbers,
    weights: &[u16],
    thicknesses: &[u8],
    file: &[u8],
) -> io::Result<()> {
    let head = read.head;
    if head.rows > 32 || head.columns > 32 {
        return Ok(());
    }
    let n = shape::area(head.rows, head.columns);
    let t = shape::ring(head.rows, head.columns);
    if n > weights.len() || t > thicknesses.len() {
        return Ok(());
    }
    let film = Gauged {
        head,
        weights: &weights[..n],
        thicknesses: &thicknesses[..t],
        wedge: read.wedge,
        steps: read.steps,
    };
    show_film(rt, &film, file)
}

fn film_in(
    rt: &impl Print,
    file: &[u8],
    weights: &mut [u16],
    thicknesses: &mut [u8],
) -> io::Result<()> {
    match file::read(file, weights, thicknesses) {
        Ok(read) => used(rt, read, weights, thicknesses, file),
        Err(r) => refused(rt, r),
    }
}

fn show(rt: &impl Print, file: &[u8]) -> io::Result<()> {
    let mut weights = [0u16; 1024];
    let mut thicknesses = [0u8; 1156];
    film_in(rt, file, &mut weights, &mut thicknesses)
}

fn show_file(rt: &(impl Files + Print + Eprint), path: &str) -> io::Result<()> {
    println!(rt; "{path}")?;
    match fs::open(rt, path) {
        Ok(mut file) => {
            let mut bytes = [0u8; 4096];
            let n = intake::fill(&mut file, &mut bytes)?;
            show(rt, &bytes[..n])
        }
        Err(e) => {
            let _ = eprintln!(rt; "{path}: {e}");
            Ok(())
        }
    }
}

fn main(rt: HostRuntime) -> io::Result<()> {
    for path in env::args(&rt)?.skip(1) {
        show_file(&rt, path.as_str())?;
    }
    Ok(())
}
