// The report of the film file on standard input, on standard output: thin over the library's `report`.
//
// It reads 65,536 bytes, or fewer if the input ends before. What lies beyond the first 22,556 cannot change the report: the longest accepted
// film has 22,555 bytes, and model/proofs/Prefix (report_prefix) shows it of every list of bytes.
//
// Proved: of a reader whose bytes are known, and a writer that says what it holds, the writer then holds the report of all the reader's bytes
// behind what it held, unless reading or writing failed.
#![tactic(auto)]

ghost use Rattle.std.specs.Prelude.{◌≤◌, length, IfSome, OnOk};
ghost use Rattle.std.specs.Io.KnownBytes.{Appends};
ghost use Rattle.model.specs.Report.{report_of};
ghost use Rattle.model.specs.ReportCall.{longest_report};

use std::io;
use std::io::{Read, Write};

fn print_report<W: Write>(out: &mut W, file: &[u8], text: &mut [u8]) -> io::Result<()>
    requires { longest_report ≤ length text.old }
    ensures { OnOk result (Appends (W.contents out.old) (W.contents out.new) (report_of file.now)) }
{
    match report::report(file, text) {
        Ok(n) => out.write_all(&text[..n]),
        Err(_) => Ok(()),
    }
}

// The report of what a reader has.
fn report_input<R: Read, W: Write>(input: &mut R, out: &mut W) -> io::Result<()>
    ensures { OnOk result (IfSome (R.remaining input.old) (λ file. Appends (W.contents out.old) (W.contents out.new) (report_of file))) }
{
    let mut file = [0u8; 65536];
    let mut text = [0u8; 65536];
    let n = intake::fill(input, &mut file)?;
    print_report(out, &file[..n], &mut text)
}

fn main(rt: HostRuntime) -> io::Result<()> {
    report_input(&mut rt.stdin(), &mut io::writer(&rt))
}
