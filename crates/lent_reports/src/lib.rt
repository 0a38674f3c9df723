// The readings of a measurement that C lends as numbers and floats. Request 2026-01.
#![tactic(auto)]

ghost use Rattle.std.specs.Prelude.{◌≡◌, ◌≤◌};
ghost use Rattle.lent_reports.specs.LentReports.{marked, report_at, lent_reading, lent_readings};

use package::arguments::{Raws, Reading, Report};

// The report whose X stands at place i; no chunks of three, since each raw takes its own.
fn report_at(floats: &[f32; 12], i: usize) -> Report
    requires { i ≤ 9 }
    ensures { result ≡ report_at floats.now i }
{
    Report {
        x: floats[i],
        y: floats[i + 1],
        z: floats[i + 2],
    }
}

// Whether the bit with this value is set.
fn is_marked(reported: u32, bit: u32) -> bool
    requires { 1 ≤ bit }
    ensures { result ≡ marked reported bit }
{
    reported / bit % 2 == 1
}

// A raw that is a report, or whole: by a flag beside both, as C marks and lends them.
fn lent_reading(reported: bool, whole: i64, report: Report) -> Reading
    ensures { result ≡ lent_reading reported whole report }
{
    if reported {
        return Reading::Reported(report);
    }
    Reading::Whole(whole)
}

// The readings by whole positions, floats, X, Y and Z of each raw in a row, and which raws are reports.
#[tactic(auto, unfolding(crate::specs::LentReports::lent_readings))]
pub fn lent_readings(q: Raws<i64>, floats: &[f32; 12], reported: u32) -> Raws<Reading>
    ensures { result ≡ lent_readings q floats.now reported }
{
    Raws {
        r1: lent_reading(is_marked(reported, 1), q.r1, report_at(floats, 0)),
        r2: lent_reading(is_marked(reported, 2), q.r2, report_at(floats, 3)),
        r3: lent_reading(is_marked(reported, 4), q.r3, report_at(floats, 6)),
        r4: lent_reading(is_marked(reported, 8), q.r4, report_at(floats, 9)),
    }
}
