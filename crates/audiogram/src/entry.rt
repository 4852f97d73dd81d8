// Which palette entry each pixel of a clinical audiogram has. Any levels and any point may be asked about.
ghost use Rattle.std.specs.Prelude.{◌≡◌, cond, ◌≤◌};
ghost use Rattle.form.specs.Form.{form};
ghost use Rattle.audiogram.specs.Entry.{entry_at, form_entry, paper_entry};

use marks::ear;
use marks::points::Point;
use patient::thresholds::Chart;

// The palette entry where no ear shows: 3 form, 0 paper.
fn form_or_paper(p: Point) -> u8
    ensures entry { result ≡ cond (form p) form_entry paper_entry }
    ensures bound { result ≤ 3 }
{
    if form::shows(p) { 3 } else { 0 }
}

// The palette entry of a pixel: 1 right ear, 2 left ear, or else the form or paper. The right ear lies over the left.
// As it is: an entry is a number and no enum: picture memory holds it as two bits, and the definition `entry_at` says which.
#[tactic(auto, unfolding(crate::specs::Entry::entry_at))]
pub fn entry_at(chart: &Chart, p: Point) -> u8
    ensures entry { result ≡ entry_at chart.now.right chart.now.left p }
    ensures bound { result ≤ 3 }
{
    if ear::shows(true, &chart.right, p) {
        return 1;
    }
    if ear::shows(false, &chart.left, p) {
        return 2;
    }
    form_or_paper(p)
}

// The same where an ear may be near; far from both the form alone is asked.
pub fn entry_near(near: bool, chart: &Chart, p: Point) -> u8
    ensures entry { result ≡ cond near (entry_at chart.now.right chart.now.left p) (cond (form p) form_entry paper_entry) }
    ensures bound { result ≤ 3 }
{
    if near {
        entry_at(chart, p)
    } else {
        form_or_paper(p)
    }
}
