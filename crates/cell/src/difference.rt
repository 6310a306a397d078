//! Where two lines of shown cells differ.

ghost use Rattle.std.specs.Prelude.{◌≡◌, ◌≤◌};
ghost use Rattle.cell.specs.{length, take, drop, IsFirstDifference, IsLastDifference};

use crate::lanes::{LANES, same_before, same_lanes};
use crate::shown::Shown;

/// The first column in which two lines of one length differ.
pub fn first_diff(old: &[Shown], new: &[Shown]) -> Option<usize>
    requires { length old.now ≡ length new.now }
    ensures { IsFirstDifference old.now new.now result }
{
    let mut start = 0;
    while old.len() - start >= LANES {
        let same = same_before(&old[start..start + LANES], &new[start..start + LANES]);
        if same < LANES {
            return Some(start + same);
        }
        start += LANES;
    }
    first_diff_from(old, new, start)
}

/// The last column in which two lines of one length differ.
pub fn last_diff(old: &[Shown], new: &[Shown]) -> Option<usize>
    requires { length old.now ≡ length new.now }
    ensures { IsLastDifference old.now new.now result }
{
    let mut end = old.len();
    while end >= LANES && same_lanes(&old[end - LANES..end], &new[end - LANES..end]) {
        end -= LANES;
    }
    last_diff_before(old, new, end)
}

/// The first column in which two lines differ that are the same before a column.
fn first_diff_from(old: &[Shown], new: &[Shown], start: usize) -> Option<usize>
    requires one { length old.now ≡ length new.now }
    requires start { start ≤ length old.now }
    requires same { take start old.now ≡ take start new.now }
    ensures { IsFirstDifference old.now new.now result }
{
    for x in start..old.len() {
        if old[x] != new[x] {
            return Some(x);
        }
    }
    None
}

/// The last column in which two lines differ that are the same from a column on.
fn last_diff_before(old: &[Shown], new: &[Shown], end: usize) -> Option<usize>
    requires one { length old.now ≡ length new.now }
    requires end { end ≤ length old.now }
    requires same { drop end old.now ≡ drop end new.now }
    ensures { IsLastDifference old.now new.now result }
{
    let mut end = end;
    while end > 0 {
        end -= 1;
        if old[end] != new[end] {
            return Some(end);
        }
    }
    None
}
