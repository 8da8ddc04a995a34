// What an asking and a refresh point that was told make of the questions.
ghost use Rattle.std.specs.Prelude.{◌≡◌, ◌<◌, ◌≤◌, ◌^◌, length, slice_index_or, vec_len, vec_capacity};
ghost use Rattle.mdns_question.specs.Tracking.{asked_at, with_asking};
ghost use Rattle.mdns_question.specs.Refreshing.{with_refresh, IsToldAt, moment_of};
ghost use Rattle.mdns_question.specs.Arranged.{IsArranged, IsChangedAt};

use crate::Tracked;
use crate::kept::moment_of;
use crate::tracked::note_asking;
use crate::users::place_of;
use dns_record::Key;
use mdns_base::Moment;
use mdns_history::Cause;
use mdns_timer::Deadlines;

/// Notes that the question was asked.
pub fn note(
    questions: &mut [Tracked],
    deadlines: &mut Deadlines,
    now: Moment,
    question: &Key,
    cause: Cause,
)
    requires arranged { IsArranged questions.old deadlines.old.moments }
    ensures questions { questions.new ≡ with_asking now question.now cause questions.old }
    ensures spare { deadlines.new.spare ≡ deadlines.old.spare }
    ensures arranged { IsArranged questions.new deadlines.new.moments }
{
    match place_of(questions, question) {
        Ok(place) => {
            note_at(questions, place, now, cause);
            deadlines.set(place, moment_of(&questions[place]));
        }
        Err(_) => {}
    }
}

fn note_at(questions: &mut [Tracked], place: usize, now: Moment, cause: Cause)
    requires place { place < length questions.old }
    ensures { IsChangedAt (asked_at now cause) place questions.old questions.new }
{
    note_asking(&mut questions[place], now, cause);
}

/// Puts the refresh point that was told of a question in place of the one told before.
pub fn put_refresh(
    questions: &mut [Tracked],
    deadlines: &mut Deadlines,
    question: &Key,
    point: Option<u64>,
)
    requires { IsArranged questions.old deadlines.old.moments }
    ensures questions { questions.new ≡ with_refresh question.now point questions.old }
    ensures spare { deadlines.new.spare ≡ deadlines.old.spare }
    ensures arranged { IsArranged questions.new deadlines.new.moments }
{
    match place_of(questions, question) {
        Ok(place) => put_refresh_at(questions, deadlines, place, point),
        Err(_) => {}
    }
}

/// Puts the refresh point that was told of the question at a place, counted from 0, in place of the one told before.
pub fn put_refresh_at(
    questions: &mut [Tracked],
    deadlines: &mut Deadlines,
    place: usize,
    point: Option<u64>,
)
    requires place { place < length questions.old }
    requires arranged { IsArranged questions.old deadlines.old.moments }
    ensures questions { IsToldAt place point questions.old questions.new }
    ensures spare { deadlines.new.spare ≡ deadlines.old.spare }
    ensures arranged { IsArranged questions.new deadlines.new.moments }
{
    put_point(questions, place, point);
    deadlines.set(place, moment_of(&questions[place]));
}

fn put_point(questions: &mut [Tracked], place: usize, point: Option<u64>)
    requires { place < length questions.old }
    ensures { IsToldAt place point questions.old questions.new }
{
    questions[place].refresh = point;
}
