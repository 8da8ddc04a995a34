// The questions in their order, and the users of each.
ghost use Rattle.std.specs.Prelude.{◌≡◌, ◌+◌, ◌-◌, ◌<◌, ◌≤◌, ◌^◌, length, OnOk, OnErr, IsOk, IfOk, IfErr, vec_len, vec_capacity};
ghost use Rattle.std.specs.List.{insert, list_any};
ghost use Rattle.dns_record.specs.declared.record.Key.{Key};
ghost use Rattle.mdns_timer.specs.Strict.{IsStrict};
ghost use Rattle.mdns_question.specs.Tracking.{is_for, tracked_cmp, with_user, without_user};
ghost use Rattle.mdns_question.specs.Refreshing.{moment_of};
ghost use Rattle.mdns_question.specs.Arranged.{IsArranged, IsAt, IsBetween, IsChangedAt, with_more, with_less};

use crate::Tracked;
use crate::kept::moment_of;
use crate::keys::key_cmp;
use crate::tracked::begun;
use dns_record::Key;
use mdns_base::Moment;
use mdns_timer::Deadlines;
use std::alloc::AllocError;

/// The place of the question; where it isn't there, the place at which it would stand.
pub fn place_of(questions: &[Tracked], question: &Key) -> Result<usize, usize>
    requires { IsStrict tracked_cmp questions.now }
    ensures found { IfOk result (IsAt questions.now question.now) }
    ensures apart { IfErr result (IsBetween questions.now question.now) }
{
    questions.binary_search_by(|one| key_cmp(&one.key, question))
}

/// Gives the question one user more: a count of 2^64 - 1 stays. The first gives moment, word and spelling. Refused only for
/// want of memory, and then nothing changes.
pub fn add_user(
    questions: &mut Vec<Tracked>,
    deadlines: &mut Deadlines,
    now: Moment,
    word: u32,
    question: &Key,
) -> Result<(), AllocError>
    requires arranged { IsArranged questions.old.items deadlines.old.moments }
    ensures ok { OnOk result (questions.new.items ≡ with_user now word question.now questions.old.items) }
    ensures err { OnErr result (questions.new.items ≡ questions.old.items) }
    ensures reserved { vec_len questions.old < vec_capacity questions.old → 1 ≤ deadlines.old.spare → IsOk result }
    ensures len { vec_len questions.new ≤ vec_len questions.old + 1 }
    ensures capacity { vec_capacity questions.old ≤ vec_capacity questions.new }
    ensures spare { deadlines.old.spare ≤ deadlines.new.spare + 1 }
    ensures arranged { IsArranged questions.new.items deadlines.new.moments }
{
    match place_of(questions, question) {
        Ok(place) => {
            use_more(questions, place);
            Ok(())
        }
        Err(place) => begin(questions, deadlines, place, begun(now, word, question)),
    }
}

// Puts a question that begins at a place.
fn begin(
    questions: &mut Vec<Tracked>,
    deadlines: &mut Deadlines,
    place: usize,
    one: Tracked,
) -> Result<(), AllocError>
    requires within { place ≤ length questions.old.items }
    requires len { length deadlines.old.moments ≡ length questions.old.items }
    ensures items { OnOk result (questions.new.items ≡ insert questions.old.items place one) }
    ensures moments { OnOk result (deadlines.new.moments ≡ insert deadlines.old.moments place (moment_of one)) }
    ensures items_err { OnErr result (questions.new.items ≡ questions.old.items) }
    ensures moments_err { OnErr result (deadlines.new.moments ≡ deadlines.old.moments) }
    ensures reserved { vec_len questions.old < vec_capacity questions.old → 1 ≤ deadlines.old.spare → IsOk result }
    ensures len { vec_len questions.new ≤ vec_len questions.old + 1 }
    ensures capacity { vec_capacity questions.old ≤ vec_capacity questions.new }
    ensures spare { deadlines.old.spare ≤ deadlines.new.spare + 1 }
{
    deadlines.reserve(1)?;
    questions.reserve(1)?;
    deadlines.insert(place, moment_of(&one));
    questions.insert(place, one)?;
    Ok(())
}

fn use_more(questions: &mut Vec<Tracked>, place: usize)
    requires { place < length questions.old.items }
    ensures items { IsChangedAt with_more place questions.old.items questions.new.items }
    ensures len { vec_len questions.new ≡ vec_len questions.old }
    ensures capacity { vec_capacity questions.new ≡ vec_capacity questions.old }
{
    let one = &mut questions[place];
    one.users = one.users.saturating_add(1);
}

/// Takes one user from the question, which ends with its last; whether it had a user.
pub fn take_user(questions: &mut Vec<Tracked>, deadlines: &mut Deadlines, question: &Key) -> bool
    requires { IsArranged questions.old.items deadlines.old.moments }
    ensures had { result ≡ list_any (is_for question.now) questions.old.items }
    ensures items { questions.new.items ≡ without_user question.now questions.old.items }
    ensures len { vec_len questions.new ≤ vec_len questions.old }
    ensures capacity { vec_capacity questions.new ≡ vec_capacity questions.old }
    ensures spare { deadlines.old.spare ≤ deadlines.new.spare }
    ensures arranged { IsArranged questions.new.items deadlines.new.moments }
{
    match place_of(questions, question) {
        Ok(place) => {
            end_use(questions, deadlines, place);
            true
        }
        Err(_) => false,
    }
}

// Takes one user from the question at a place, which ends with its last.
fn end_use(questions: &mut Vec<Tracked>, deadlines: &mut Deadlines, place: usize)
    requires place { place < length questions.old.items }
    requires arranged { IsArranged questions.old.items deadlines.old.moments }
    ensures items { (question : Key) → IsAt questions.old.items question place → questions.new.items ≡ without_user question questions.old.items }
    ensures len { vec_len questions.new ≤ vec_len questions.old }
    ensures capacity { vec_capacity questions.new ≡ vec_capacity questions.old }
    ensures spare { deadlines.old.spare ≤ deadlines.new.spare }
    ensures arranged { (question : Key) → IsAt questions.old.items question place → IsArranged questions.new.items deadlines.new.moments }
{
    if questions[place].users > 1 {
        use_less(questions, place);
    } else {
        questions.remove(place);
        deadlines.remove(place);
    }
}

fn use_less(questions: &mut Vec<Tracked>, place: usize)
    requires { place < length questions.old.items }
    ensures items { IsChangedAt with_less place questions.old.items questions.new.items }
    ensures len { vec_len questions.new ≡ vec_len questions.old }
    ensures capacity { vec_capacity questions.new ≡ vec_capacity questions.old }
{
    let one = &mut questions[place];
    one.users = one.users.saturating_sub(1);
}
