// The report's text of an accepted film: its head, one run on a field of zeros, and what the run answered. Internal: `gauged_report` and `coefficient_report` call it.
//
// Proved: the text is that of crate `model` (film_report), byte for byte.
#![tactic(auto)]

ghost use Rattle.std.specs.Prelude.{◌≡◌, replicate};
ghost use Rattle.model.specs.Film.{size_of};
ghost use Rattle.model.specs.Accepted.{Accepted};
ghost use Rattle.model.specs.Report.{head_line, film_report};
ghost use Rattle.text.specs.Writes.{Fits, Writes};

use model::Film;

// The budget of the report's run.
const BUDGET: u32 = 4000000;

// The head's line.
fn put_head(film: &Film, out: &mut [u8]) -> usize
    requires { Fits (head_line film.now) out.old 0 }
    ensures { Writes (head_line film.now) out.old 0 out.new result }
{
    let head = film.head;
    report_lines::put_head(
        out,
        0,
        u64::from(head.rows),
        u64::from(head.columns),
        u64::from(head.ceiling),
    )
}

// The report of an accepted film: its head, one run on a field of zeros, and the run's answer.
pub fn put_run(film: &Film, field: &mut [u32], out: &mut [u8]) -> usize
    requires accepted { Accepted film.now × (field.old ≡ replicate (size_of film.now) 0) }
    requires fits { Fits (film_report film.now) out.old 0 }
    ensures { Writes (film_report film.now) out.old 0 out.new result }
{
    let next = put_head(film, out);
    let answer = run::run(film, field, BUDGET, 0, false);
    render::put_answer(film, field, answer, out, next)
}
