// Runs the library's `report` on film files, and compares each text with a stored one, byte by byte. Its arguments name a film and its
// expected report in turn; both stand in data/.
//
// data/, args and stdout are written by the test oracle (tests/oracle), which was made from document 01 alone and shares nothing with Film.
#![tactic(auto)]

ghost use Rattle.std.specs.Prelude.{◌≡◌, ◌≤◌, ◌↔◌, length, IfOk, IsTrue};
ghost use Rattle.model.specs.Report.{report_of};
ghost use Rattle.model.specs.ReportCall.{longest_report};

use std::rt::Files;
use std::{env, fs, io};

// Whether the report of a film is the expected one.
fn agrees(film: &[u8], expected: &[u8], text: &mut [u8]) -> bool
    requires { longest_report ≤ length text.old }
    ensures { IsTrue result ↔ report_of film.now ≡ expected.now }
{
    match report::report(film, text) {
        Ok(n) => &text[..n] == expected,
        Err(_) => false,
    }
}

fn tell(rt: &impl Print, path: &str, same: bool) -> io::Result<()> {
    if same {
        println!(rt; "{path}: same")
    } else {
        println!(rt; "{path}: differs")
    }
}

fn compare(rt: &impl Print, path: &str, film: &[u8], expected: &[u8]) -> io::Result<()> {
    let mut text = [0u8; 65536];
    tell(rt, path, agrees(film, expected, &mut text))
}

// A file's first bytes, as many as there is room for.
fn read_start(rt: &impl Files, path: &str, bytes: &mut [u8]) -> io::Result<usize>
    ensures { IfOk result (λ n. n ≤ length bytes.new) }
{
    intake::fill(&mut fs::open(rt, path)?, bytes)
}

// The bytes of the file that an argument names, into a lent buffer; it answers how many there are. Of a file that cannot be read there are
// none, and standard error says so.
fn load(rt: &(impl Files + Eprint), path: &str, bytes: &mut [u8]) -> usize
    ensures { result ≤ length bytes.new }
{
    match read_start(rt, path, bytes) {
        Ok(n) => n,
        Err(e) => {
            let _ = eprintln!(rt; "{path}: {e}");
            0
        }
    }
}

// The film, with the report that an argument names.
fn expected(
    rt: &(impl Files + Print + Eprint),
    path: &str,
    film: &[u8],
    report: &str,
) -> io::Result<()> {
    let mut bytes = [0u8; 65536];
    let n = load(rt, report, &mut bytes);
    compare(rt, path, film, &bytes[..n])
}

// The film that one argument names, with the report that another names.
fn vector(rt: &(impl Files + Print + Eprint), film: &str, report: &str) -> io::Result<()> {
    let mut bytes = [0u8; 65536];
    let n = load(rt, film, &mut bytes);
    expected(rt, film, &bytes[..n], report)
}

fn main(rt: HostRuntime) -> io::Result<()> {
    let arguments: Vec<String> = env::args(&rt)?.skip(1).collect(rt.alloc())?;
    for pair in arguments.chunks_exact(2) {
        vector(&rt, pair[0].as_str(), pair[1].as_str())?;
    }
    Ok(())
}
