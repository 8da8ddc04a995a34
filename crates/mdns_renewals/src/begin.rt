// The group that begins with a registration, and that of the host. (RFC 6762 8.1, RFC 6763 4 and 7)
ghost use Rattle.std.specs.Prelude.{IfOk, MatchOption, Some, map, true, ◌<◌, ◌^◌, ◌≡◌, ◌≤◌};
ghost use Rattle.std.specs.Option.{option_map};
ghost use Rattle.mdns_renewals.specs.Occasions.{begun_kept, registration_told};
ghost use Rattle.mdns_renewals.specs.Wishes.{IsAcceptable};
ghost use Rattle.mdns_renewals.specs.Seen.{occasion_in};
ghost use Rattle.mdns_claimants.specs.Typed.{have_data, records_of};
ghost use Rattle.mdns_renewals.specs.Wishes.{asked_by, registering, registration_of};
ghost use Rattle.mdns_happened.specs.Told.{told_by};
ghost use Rattle.mdns_history.specs.Groups.{free_number, numbered_name};
ghost use Rattle.mdns_probe.specs.Claiming.{begun};
ghost use Rattle.mdns_probe.specs.Kept.{name_of};
ghost use Rattle.mdns_probe.specs.Naming.{shared_named, unique_named};
ghost use Rattle.sd_name.specs.ServiceTypes.{service_type};
ghost use Rattle.sd_service.specs.Bitmaps.{have_bitmap};

use crate::renew::Seen;
use bytes::Bytes;
use dns_name::{Label, Name};
use mdns_claimants::{Claimant, look_at};
use mdns_contest::MOST_GROUPS;
use mdns_happened::{Happened, When};
use mdns_probe::{Claim, Naming, Published, Service};
use sd_call::{Request, Text};
use sd_name::RegType;
use std::alloc::{AllocError, Global};

/// A registration that is asked for: by which operation, and what.
#[derive(Drop)]
pub struct Wish<'a> {
    pub session: u64,
    pub op: u32,
    pub label: &'a Text,
    pub regtype: &'a Text,
    pub port: u16,
    pub norename: bool,
    pub txt: &'a Bytes,
}

/// The group of the registration that an event accepts, beside these groups, where so many registrations were accepted before.
/// Refused only for want of memory.
pub fn begun(
    alloc: Global,
    seen: &Seen<'_>,
    registered: u64,
    groups: &[Claimant],
) -> Result<Option<Claimant>, AllocError>
    requires { IsAcceptable registered (told_by seen.now.happened.now).call }
    ensures typed { IfOk result (λ one. MatchOption one (Unit {0}) (λ group. have_data (records_of group.claim) ≡ true)) }
    ensures mapped { IfOk result (λ one. MatchOption one (Unit {0}) (λ group. have_bitmap group.claim.unique ≡ true)) }
    ensures value { IfOk result (λ one. one ≡ option_map (begun_kept registered groups.now (occasion_in seen.now)) (registration_told (told_by seen.now.happened.now).call)) }
{
    match wished(seen.happened) {
        Some(wish) => {
            let one = granted(alloc, seen, registered, groups, &wish)?;
            Ok(Some(one))
        }
        None => Ok(None),
    }
}

// The registration that an event accepts.
fn wished<'a>(happened: &'a Happened<'_>) -> Option<Wish<'a>>
    ensures { option_map asked_by result ≡ registering (told_by happened.now).call }
{
    match happened {
        Happened::Called {
            session,
            op,
            request: Request::Register {
                label,
                regtype,
                port,
                norename,
                txt,
            },
            code: 0,
        } => Some(Wish {
            session: *session,
            op: *op,
            label,
            regtype,
            port: *port,
            norename: *norename,
            txt,
        }),
        _ => None,
    }
}

// The group of a registration. Refused only for want of memory.
fn granted(
    alloc: Global,
    seen: &Seen<'_>,
    registered: u64,
    groups: &[Claimant],
    wish: &Wish<'_>,
) -> Result<Claimant, AllocError>
    requires room { registered < 2 ^ 63 }
    ensures typed { IfOk result (λ one. have_data (records_of one.claim) ≡ true) }
    ensures mapped { IfOk result (λ one. have_bitmap one.claim.unique ≡ true) }
    ensures value { IfOk result (λ one. (told_by seen.now.happened.now).call ≡ Some (asked_by wish.now) → one ≡ begun_kept registered groups.now (occasion_in seen.now) (registration_of wish.now)) }
{
    let service = Service {
        session: wish.session,
        op: wish.op,
        regtype: regtype_of(wish.regtype)?,
        port: wish.port,
        norename: wish.norename,
    };
    let fresh = Naming::service(registered + 1, label_of(wish.label)?, 1, service);
    let naming = with_free_name(alloc, fresh, groups)?;
    let published = Published {
        config: seen.config,
        host: &seen.host,
        txt: wish.txt,
    };
    let wait = seen.wait(naming.id());
    let one = begun_claimant(alloc, naming, seen.when, wait, &published)?;
    Ok(one)
}

/// A group as it begins, under the number that it has from the first. Refused only for want of memory.
#[tactic(auto, using(crate::proofs::Named::is_named))]
pub fn begun_claimant(
    alloc: Global,
    naming: Naming,
    when: When,
    wait: u64,
    published: &Published<'_>,
) -> Result<Claimant, AllocError>
    requires wait { wait ≤ 5000 }
    ensures typed { IfOk result (λ one. have_data (records_of one.claim) ≡ true) }
    ensures mapped { IfOk result (λ one. have_bitmap one.claim.unique ≡ true) }
    ensures value { IfOk result (λ one. one ≡ record {
      group = naming;
      number = naming.first;
      claim = begun when.moment wait naming.id (unique_named published.now.config.now published.now.host.now naming (numbered_name naming naming.first) published.now.txt.now) (shared_named naming (numbered_name naming naming.first));
    }) }
{
    let number = naming.first();
    let name = naming.name_under(number);
    let unique = naming.unique_records(alloc, &name, published)?;
    let shared = naming.shared_records(alloc, &name)?;
    look_at(unique.as_slice());
    look_at(shared.as_slice());
    let claim = Claim::begun(when.at(), wait, naming.id(), unique, shared);
    Ok(Claimant::new(naming, number, claim))
}

// The naming of a new group with the least number whose name no group has. Refused only for want of memory, as it is where there
// are more groups than memory ever has.
fn with_free_name(alloc: Global, fresh: Naming, groups: &[Claimant]) -> Result<Naming, AllocError>
    ensures { IfOk result (λ naming. naming ≡ record fresh { first = free_number 1 (map name_of groups.now) fresh }) }
{
    if groups.len() > MOST_GROUPS {
        return Err(AllocError);
    }
    let names = names_of(alloc, groups)?;
    let first = fresh.free_number(1, &names);
    Ok(fresh.beginning_with(first))
}

fn names_of(alloc: Global, groups: &[Claimant]) -> Result<Vec<Name>, AllocError>
    ensures { IfOk result (λ names. names.items ≡ map name_of groups.now) }
{
    let mut names = Vec::with_capacity(alloc, groups.len())?;
    for one in groups {
        names.push(one.name().copy())?;
    }
    Ok(names)
}

// The label of a service; it is one where the call is well formed.
fn label_of(label: &Text) -> Result<Label, AllocError>
    ensures { IfOk result (λ found. found ≡ label.now) }
{
    Label::new(label.as_str().as_bytes()).ok_or(AllocError)
}

// The type of a service; it is one where the call is well formed.
fn regtype_of(regtype: &Text) -> Result<RegType, AllocError>
    ensures { IfOk result (λ found. service_type regtype.now ≡ Some found) }
{
    RegType::parse(regtype.as_str()).map_err(|_| AllocError)
}
