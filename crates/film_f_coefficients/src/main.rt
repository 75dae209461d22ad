// Plays film F as a coefficient film (document 02, W1) through the public calls, and prints what they answer: the converter's file, what the
// reader lays over its buffers, the file written back, and refusals. The file `stdout` beside src/ was made from
// the documents, and not from what the program prints.
#![tactic(auto)]

use model::{Film, Gauged, Head, Refusal};
use std::fmt::Display;
use std::io;

// Film F: 1 row, 2 columns, ceiling 100, weights 1 1, ring rows all 1, middle row 3 2 1 1, wedge 100. Its coefficient film has 71 bytes.
const WEIGHTS: [u16; 2] = [1, 1];

const THICKNESSES: [u8; 12] = [1, 1, 1, 1, 3, 2, 1, 1, 1, 1, 1, 1];

const HEAD: Head = Head {
    rows: 1,
    columns: 2,
    ceiling: 100,
};

fn refused(rt: &impl Print, r: Refusal) -> io::Result<()> {
    let fault = r.fault;
    print!(rt; " REFUSED {} {}", fault.number(), r.place)
}

fn saved(rt: &impl Print, answer: Result<(), Refusal>) -> io::Result<()> {
    match answer {
        Ok(()) => print!(rt; " WRITTEN"),
        Err(r) => refused(rt, r),
    }
}

fn octets(rt: &impl Print, bytes: &[u8]) -> io::Result<()> {
    for byte in bytes {
        print!(rt; " {byte}")?;
    }
    println!(rt)
}

// The converter, on film F with that first thickness of the middle row.
fn convert(rt: &impl Print, thickness: u8, out: &mut [u8]) -> io::Result<()> {
    let mut thicknesses = THICKNESSES;
    thicknesses[4] = thickness;
    let film = Gauged {
        head: HEAD,
        weights: &WEIGHTS,
        thicknesses: &thicknesses,
        wedge: 100,
        steps: None,
    };
    print!(rt; "CONVERT")?;
    saved(rt, conversion::convert(&film, out))?;
    print!(rt; " :")?;
    octets(rt, out)
}

// The number at a place of a buffer, where the buffer has that place.
fn number_at<N: Copy + Display + Drop>(rt: &impl Print, xs: &[N], i: usize) -> io::Result<()> {
    match xs.get(i) {
        Some(x) => print!(rt; " {x}"),
        None => Ok(()),
    }
}

// One place of each buffer.
fn place(rt: &impl Print, buffers: &Film, i: usize) -> io::Result<()> {
    print!(rt; " :")?;
    number_at(rt, buffers.weights, i)?;
    number_at(rt, buffers.diagonals, i)?;
    number_at(rt, buffers.rights, i)?;
    number_at(rt, buffers.ups, i)?;
    number_at(rt, buffers.sources, i)
}

// The first three: those of film F, and one beyond.
fn show(rt: &impl Print, buffers: &Film) -> io::Result<()> {
    for i in 0..3 {
        place(rt, buffers, i)?;
    }
    println!(rt)
}

fn loaded(rt: &impl Print, answer: Result<Head, Refusal>) -> io::Result<()> {
    match answer {
        Ok(h) => print!(rt; " {} {} {}", h.rows, h.columns, h.ceiling),
        Err(r) => refused(rt, r),
    }
}

// The reader, on buffers that hold other numbers before.
fn read_into(rt: &impl Print, file: &[u8], sources: &mut [i64]) -> io::Result<()> {
    let mut weights = [7u16; 1024];
    let mut diagonals = [7u32; 1024];
    let mut rights = [7u32; 1024];
    let mut ups = [7u32; 1024];
    print!(rt; "READ")?;
    loaded(
        rt,
        coefficient_file::read(
            file,
            &mut weights,
            &mut diagonals,
            &mut rights,
            &mut ups,
            sources,
        ),
    )?;
    let buffers = Film {
        head: HEAD,
        weights: &weights,
        diagonals: &diagonals,
        rights: &rights,
        ups: &ups,
        sources: &sources[..],
    };
    show(rt, &buffers)
}

fn read(rt: &impl Print, file: &[u8]) -> io::Result<()> {
    read_into(rt, file, &mut [-7i64; 1024])
}

// With a last buffer that is one too short.
fn read_short(rt: &impl Print, file: &[u8]) -> io::Result<()> {
    read_into(rt, file, &mut [-7i64; 1023])
}

// The writer, with that first weight and that first diagonal.
fn write(rt: &impl Print, weight: u16, diagonal: u32, out: &mut [u8]) -> io::Result<()> {
    let film = Film {
        head: HEAD,
        weights: &[weight, 1],
        diagonals: &[diagonal, 51],
        rights: &[27, 0],
        ups: &[0, 0],
        sources: &[-200, -100],
    };
    print!(rt; "WRITE")?;
    saved(rt, coefficient_file::write(&film, out))?;
    print!(rt; " :")?;
    octets(rt, out)
}

// The file without its last byte.
fn read_cut(rt: &impl Print, file: &[u8]) -> io::Result<()> {
    match file.split_last() {
        Some((_, cut)) => read(rt, cut),
        None => Ok(()),
    }
}

fn main(rt: HostRuntime) -> io::Result<()> {
    let mut file = [0u8; 71];
    convert(&rt, 3, &mut file)?;
    read(&rt, &file)?;
    read_short(&rt, &file)?;
    read_cut(&rt, &file)?;
    let mut other = file;
    other[25] = 0;
    read(&rt, &other)?;
    read_cut(&rt, &other)?;
    other[25] = 27;
    read(&rt, &other)?;
    let mut copy = [0u8; 71];
    write(&rt, 1, 206, &mut copy)?;
    let mut kept = [9u8; 71];
    write(&rt, 0, 0, &mut kept)?;
    write(&rt, 1, 0, &mut kept)?;
    write(&rt, 1, 27, &mut kept)?;
    convert(&rt, 0, &mut kept)?;
    let mut short = [9u8; 70];
    write(&rt, 1, 206, &mut short)?;
    convert(&rt, 3, &mut short)
}
