// Which names are to be walked for the questions.
ghost use Rattle.std.specs.Prelude.{◌≡◌, ℕ, ◌<◌, List, [], Bool, ◌&&◌, true, length, slice_index_or, OnOk};
ghost use Rattle.std.specs.List.{list_any, All, AllByRecursion};
ghost use Rattle.dns_name.specs.Names.{folded_eq};
ghost use Rattle.dns_record.specs.declared.record.Key.{Key};
ghost use Rattle.mdns_cache.specs.Ended.{is_among};
ghost use Rattle.mdns_happened.specs.Told.{told_by};
ghost use Rattle.mdns_question.specs.declared.tracked.Tracked.{Tracked};
ghost use Rattle.sd_sessions.specs.Kept.{IsWellFormedCall};
ghost use Rattle.mdns_asking.specs.Asked.{begun_keys};
ghost use Rattle.sd_sessions.specs.Put.{is_called, is_name_in, ArePutOnce, ArePutOnly};
ghost use Rattle.mdns_asking.specs.Places.{ArePut};

use dns_name::Name;
use dns_record::Key;
use mdns_happened::Happened;
use mdns_question::Tracked;
use sd_answer::questions_of;
use sd_sessions::put_once;
use std::alloc::AllocError;

/// Puts the names of the questions at these places. Refused only for want of memory.
pub fn put_names_at(
    names: &mut Vec<Name>,
    questions: &[Tracked],
    places: &[usize],
) -> Result<(), AllocError>
    requires { All (λ place. place < length questions.now) places.now }
    ensures kept { OnOk result ((name : List (List ℕ)) → is_among names.old.items name ≡ true → is_among names.new.items name ≡ true) }
    ensures named { OnOk result ((test : Tracked → Bool) → ArePut test questions.now [] places.now
        → AllByRecursion (λ (one : Tracked). test one ≡ true → is_among names.new.items one.key.name ≡ true) questions.now) }
    ensures only { OnOk result ((test : Tracked → Bool) → ArePut test questions.now [] places.now
        → ArePutOnly (λ name. list_any (λ one. test one && folded_eq name one.key.name) questions.now) names.old.items names.new.items) }
    ensures once { OnOk result (ArePutOnce names.old.items names.new.items) }
{
    let mut near = 0;
    for place in places {
        near = put_near(names, &questions[*place].key.name, near)?;
    }
    Ok(())
}

// Puts a name that isn't among others, case aside, and gives a place behind where it stands. It is looked for at the place `near` first:
// mostly the names of touched questions are there already, in their order.
fn put_near(names: &mut Vec<Name>, name: &Name, near: usize) -> Result<usize, AllocError>
    ensures kept { OnOk result ((other : List (List ℕ)) → is_among names.old.items other ≡ true → is_among names.new.items other ≡ true) }
    ensures put { OnOk result (is_among names.new.items name.now ≡ true) }
    ensures only { OnOk result (ArePutOnly (λ other. folded_eq other name.now) names.old.items names.new.items) }
    ensures once { OnOk result (ArePutOnce names.old.items names.new.items) }
{
    if is_name_at(names, name, near) {
        return Ok(near.saturating_add(1));
    }
    put_once(names, name)?;
    Ok(names.len())
}

// Whether the name at a place is this one, case aside.
fn is_name_at(names: &[Name], name: &Name, place: usize) -> bool
    ensures within { result ≡ true → place < length names.now }
    ensures named { result ≡ true → (d : List (List ℕ)) → folded_eq name.now (slice_index_or names.now place d) ≡ true }
{
    place < names.len() && name.folded_eq(&names[place])
}

/// Puts the names of the questions that get a user. Refused only for want of memory.
pub fn put_begun_names(names: &mut Vec<Name>, happened: &Happened<'_>) -> Result<(), AllocError>
    requires { IsWellFormedCall (told_by happened.now).call }
    ensures kept { OnOk result ((name : List (List ℕ)) → is_among names.old.items name ≡ true → is_among names.new.items name ≡ true) }
    ensures named { OnOk result (AllByRecursion (λ (key : Key). is_among names.new.items key.name ≡ true) (begun_keys (told_by happened.now).call)) }
    ensures only { OnOk result (ArePutOnly (is_called (told_by happened.now).call) names.old.items names.new.items) }
    ensures once { OnOk result (ArePutOnce names.old.items names.new.items) }
{
    match happened {
        Happened::Called {
            request,
            code: 0,
            ..
        } => put_key_names(names, questions_of(request).as_slice()),
        _ => Ok(()),
    }
}

fn put_key_names(names: &mut Vec<Name>, keys: &[Key]) -> Result<(), AllocError>
    ensures kept { OnOk result ((name : List (List ℕ)) → is_among names.old.items name ≡ true → is_among names.new.items name ≡ true) }
    ensures named { OnOk result (AllByRecursion (λ (key : Key). is_among names.new.items key.name ≡ true) keys.now) }
    ensures only { OnOk result (ArePutOnly (is_name_in keys.now) names.old.items names.new.items) }
    ensures once { OnOk result (ArePutOnce names.old.items names.new.items) }
{
    for key in keys {
        put_once(names, &key.name)?;
    }
    Ok(())
}
