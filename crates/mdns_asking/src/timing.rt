// The refresh points that an asker is told. (RFC 6762 5.2)
ghost use Rattle.std.specs.Prelude.{◌≡◌, map};
ghost use Rattle.mdns_asking.specs.ByWalks.{timed_by, timed_if};

use mdns_happened::Walk;
use mdns_question::{Asker, first_refresh};

/// Tells of each question of a walked name the first refresh point of its later records. Other questions aren't looked at.
pub fn tell_points(asker: &mut Asker, walks: &[Walk])
    ensures { asker.new.questions ≡ map (timed_by walks.now) asker.old.questions }
{
    // A name's first walk counts, so it is the last one that is told: then no walk is looked for.
    let mut left = walks.len();
    let mut near = asker.questions().len().saturating_sub(1);
    while left > 0 {
        left -= 1;
        near = tell_points_of(asker, &walks[left], near);
    }
}

// Tells it of the questions of a walk's name, and gives the place before the first. They are found at once from a place near them: mostly
// names are walked in the order of their questions.
fn tell_points_of(asker: &mut Asker, walk: &Walk, near: usize) -> usize
    ensures { asker.new.questions ≡ map (timed_if walk.now) asker.old.questions }
{
    let (first, end) = asker.places_near(&walk.name, near);
    for place in first..end {
        let point = first_refresh(&asker.questions()[place], walk.later.as_slice());
        asker.tell_at(place, point);
    }
    first.saturating_sub(1)
}
