// The calls on gauged films' files, and the report.
ghost use Rattle.model.specs.Result.{refusal_in};
ghost use Rattle.model.specs.FileCalls.{gauge_of, save_call};
ghost use Rattle.model.specs.ReportCall.{report_call};
ghost use Rattle.told.specs.Refused.{Told};
ghost use Rattle.tell_files.specs.Files.{ReportTold};
ghost use Rattle.archive.specs.Lent.{lent_head, lent_steps, Leaves, ReadTold};

use model::Gauged;

// Writes a file's report at the start of out, and tells its length.
#[unsafe(no_mangle)]
pub extern "C" fn film_report(
    file: &[u8],
    out: &mut [u8],
    length: &mut usize,
    place: &mut usize,
) -> u32
    ensures { Leaves (report_call file.now out.old) (λ a. ReportTold a length.old place.old result length.new place.new) out.new }
{
    tell_files::report(report::report(file, out), length, place)
}

// Reads a film file, its head, its wedge and its grid steps.
#[unsafe(no_mangle)]
pub extern "C" fn film_read(
    file: &[u8],
    weights: &mut [u16],
    thicknesses: &mut [u8],
    head: &mut [u32; 3],
    wedge: &mut i32,
    steps: &mut [u32; 3],
    place: &mut usize,
) -> u32
    ensures { ReadTold file.now weights.old thicknesses.old head.old wedge.old steps.old place.old result weights.new thicknesses.new head.new wedge.new steps.new place.new }
{
    tell_files::read(
        file::read(file, weights, thicknesses),
        head,
        wedge,
        steps,
        place,
    )
}

// Writes a film's file.
#[unsafe(no_mangle)]
pub extern "C" fn film_write(
    head: &[u32; 3],
    weights: &[u16],
    thicknesses: &[u8],
    wedge: i32,
    steps: &[u32; 3],
    out: &mut [u8],
    place: &mut usize,
) -> u32
    ensures { Leaves (save_call (gauge_of (lent_head head.now) weights.now thicknesses.now wedge (lent_steps steps.now)) out.old) (λ a. Told (refusal_in a) place.old result place.new) out.new }
{
    let film = Gauged {
        head: archive::head_of(head),
        weights,
        thicknesses,
        wedge,
        steps: archive::steps_of(steps),
    };
    told::answer(file::write(&film, out), place)
}
