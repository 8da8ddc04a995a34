// What an event changes in the sessions, computed before anything is changed.
ghost use Rattle.std.specs.Prelude.{◌≡◌, ◌++◌, map, IfOk, OnOk};
ghost use Rattle.mdns_history.specs.Items.{given_to};
ghost use Rattle.mdns_happened.specs.Told.{told_by};
ghost use Rattle.sd_sessions.specs.Settling.{own_call, cuts_of, gifts_of};

use mdns_happened::Happened;
use mdns_history::{Gifts, Given, Items, Mark, Marks};
use sd_call::Item;
use sd_operations::Call;
use std::alloc::{AllocError, Global};

/// What an event changes in a session: the call that the session made, where it is one that was accepted, what the session is
/// brought, and whether that cuts it.
#[derive(Drop)]
pub struct SessionChange {
    pub session: u64,
    pub call: Option<Call>,
    pub brought: Items,
    pub cuts: bool,
}

/// The call of the session of a number, where it is the session's that was accepted, copied. Refused only for want of memory.
pub fn own_call(
    alloc: Global,
    number: u64,
    happened: &Happened<'_>,
) -> Result<Option<Call>, AllocError>
    ensures { IfOk result (λ call. call ≡ own_call (told_by happened.now).call number) }
{
    match happened {
        Happened::Called {
            session,
            op,
            request,
            code: 0,
        } if *session == number => {
            let request = request.copy(alloc)?;
            Ok(Some(Call { op: *op, request }))
        }
        _ => Ok(None),
    }
}

/// Puts the marks of the sessions that are cut behind others. Refused only for want of memory.
pub fn put_cuts(marks: &mut Marks, changes: &[SessionChange]) -> Result<(), AllocError>
    ensures { OnOk result (marks.new ≡ marks.old ++ cuts_of changes.now) }
{
    for change in changes {
        if change.cuts {
            marks.push(Mark::Cut {
                session: change.session,
            })?;
        }
    }
    Ok(())
}

/// What the sessions that aren't cut are given, copied. Refused only for want of memory.
pub fn gifts(alloc: Global, changes: &[SessionChange]) -> Result<Gifts, AllocError>
    ensures { IfOk result (λ gifts. gifts ≡ gifts_of changes.now) }
{
    let mut gifts = Gifts::new(alloc);
    for change in changes {
        if !change.cuts {
            put_gifts(&mut gifts, change.session, change.brought.as_slice())?;
        }
    }
    Ok(gifts)
}

fn put_gifts(gifts: &mut Gifts, session: u64, items: &[Item]) -> Result<(), AllocError>
    ensures { OnOk result (gifts.new ≡ gifts.old ++ map (given_to session) items.now) }
{
    for item in items {
        let item = item.copy()?;
        gifts.push(Given { session, item })?;
    }
    Ok(())
}
