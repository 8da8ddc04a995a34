// The names by whose records an event is looked at.
ghost use Rattle.std.specs.Prelude.{◌≡◌, true, IsTrue, OnOk};
ghost use Rattle.std.specs.List.{AllByRecursion};
ghost use Rattle.dns_name.specs.Names.{folded_eq};
ghost use Rattle.sd_call.specs.Requests.{well_formed};
ghost use Rattle.mdns_history.specs.Questions.{keys_of};
ghost use Rattle.mdns_cache.specs.Ended.{is_among};
ghost use Rattle.mdns_happened.specs.Told.{told_by};
ghost use Rattle.sd_sessions.specs.Kept.{IsWellFormedCall};
ghost use Rattle.sd_sessions.specs.Walked.{AreWithin, IsCallNamed};
ghost use Rattle.sd_sessions.specs.Indexed.{is_asked, ArePut};
ghost use Rattle.sd_sessions.specs.Put.{is_called, is_name_in, ArePutOnce, ArePutOnly};

use dns_name::Name;
use dns_record::Key;
use mdns_happened::Happened;
use sd_answer::questions_of;
use sd_call::Request;
use sd_index::Askers;
use std::alloc::AllocError;

/// Puts the touched names that operations ask for. Refused only for want of memory.
pub fn put_touched(
    names: &mut Vec<Name>,
    askers: &Askers,
    touched: &[Name],
) -> Result<(), AllocError>
    ensures kept { OnOk result (AreWithin names.old.items names.new.items) }
    ensures put { OnOk result (ArePut touched.now askers.now.entries names.new.items) }
    ensures only { OnOk result (ArePutOnly (is_among touched.now) names.old.items names.new.items) }
    ensures once { OnOk result (ArePutOnce names.old.items names.new.items) }
{
    for name in touched {
        put_if_asked(names, askers, name)?;
    }
    Ok(())
}

// Puts a name that operations ask for.
fn put_if_asked(names: &mut Vec<Name>, askers: &Askers, name: &Name) -> Result<(), AllocError>
    ensures kept { OnOk result (AreWithin names.old.items names.new.items) }
    ensures put { OnOk result (is_asked askers.now.entries name.now ≡ true → is_among names.new.items name.now ≡ true) }
    ensures only { OnOk result (ArePutOnly (λ other. folded_eq other name.now) names.old.items names.new.items) }
    ensures once { OnOk result (ArePutOnce names.old.items names.new.items) }
{
    if askers.has(name) {
        put_once(names, name)?;
    }
    Ok(())
}

/// Puts the name that an accepted call asks for. Refused only for want of memory.
pub fn put_called(names: &mut Vec<Name>, happened: &Happened<'_>) -> Result<(), AllocError>
    requires { IsWellFormedCall (told_by happened.now).call }
    ensures kept { OnOk result (AreWithin names.old.items names.new.items) }
    ensures call { OnOk result (IsCallNamed names.new.items (told_by happened.now).call) }
    ensures only { OnOk result (ArePutOnly (is_called (told_by happened.now).call) names.old.items names.new.items) }
    ensures once { OnOk result (ArePutOnce names.old.items names.new.items) }
{
    match happened {
        Happened::Called {
            request,
            code: 0,
            ..
        } => put_asked(names, request),
        _ => Ok(()),
    }
}

// Puts the names that a request asks for.
fn put_asked(names: &mut Vec<Name>, request: &Request) -> Result<(), AllocError>
    requires { IsTrue (well_formed request.now) }
    ensures kept { OnOk result (AreWithin names.old.items names.new.items) }
    ensures asked { OnOk result (AllByRecursion (λ key. is_among names.new.items key.name ≡ true) (keys_of request.now)) }
    ensures only { OnOk result (ArePutOnly (is_name_in (keys_of request.now)) names.old.items names.new.items) }
    ensures once { OnOk result (ArePutOnce names.old.items names.new.items) }
{
    let questions = questions_of(request);
    put_names_of(names, questions.as_slice())?;
    Ok(())
}

// Puts the names of questions.
fn put_names_of(names: &mut Vec<Name>, questions: &[Key]) -> Result<(), AllocError>
    ensures kept { OnOk result (AreWithin names.old.items names.new.items) }
    ensures asked { OnOk result (AllByRecursion (λ key. is_among names.new.items key.name ≡ true) questions.now) }
    ensures only { OnOk result (ArePutOnly (is_name_in questions.now) names.old.items names.new.items) }
    ensures once { OnOk result (ArePutOnce names.old.items names.new.items) }
{
    for question in questions {
        put_once(names, &question.name)?;
    }
    Ok(())
}

/// Puts a name that isn't among others, case aside. Refused only for want of memory.
pub fn put_once(names: &mut Vec<Name>, name: &Name) -> Result<(), AllocError>
    ensures kept { OnOk result (AreWithin names.old.items names.new.items) }
    ensures put { OnOk result (is_among names.new.items name.now ≡ true) }
    ensures only { OnOk result (ArePutOnly (λ other. folded_eq other name.now) names.old.items names.new.items) }
    ensures once { OnOk result (ArePutOnce names.old.items names.new.items) }
{
    if !is_among(names, name) {
        names.push(name.copy())?;
    }
    Ok(())
}

// Whether a name is one of several, case aside.
fn is_among(names: &[Name], name: &Name) -> bool
    ensures { result ≡ is_among names.now name.now }
{
    names.iter().any(|one| name.folded_eq(one))
}
