// Rows of clashes, ties and storms. (RFC 6762 8.1, 8.2 and 9)
ghost use Rattle.std.specs.Prelude.{◌≡◌};
ghost use Rattle.std.specs.List.{list_all};
ghost use Rattle.dns_name.specs.Names.{folded_eq};

use dns_name::Name;
use dns_record::Rr;
use mdns_base::Moment;
use mdns_conflict::{Storm, compare_sets, conflicts, loses_tie};
use row_words::{RowError, Told, milliseconds, moment, name_of, number, records};
use std::alloc::Global;

/// A row of conflicts: `clash` has unique records and heard ones, `tie` a name, its unique records and the authority records of a query,
/// and `order` two sides of a tie.
pub fn conflict_row(told: &mut Told, row: &[&str]) -> Result<(), RowError> {
    match row {
        ["clash", unique, heard] => tell_clash(told, *unique, *heard),
        ["tie", name, unique, authority] => {
            tell_tie(told, &name_of(*name)?, *unique, *authority)
        }
        ["order", ours, theirs] => tell_order(told, *ours, *theirs),
        _ => Err(RowError::NotUnderstood),
    }
}

fn tell_clash(told: &mut Told, unique: &str, heard: &str) -> Result<(), RowError> {
    let unique = records(told.alloc, unique)?;
    let heard = records(told.alloc, heard)?;
    told.put_yes(conflicts(&unique, &heard))
}

fn tell_order(told: &mut Told, ours: &str, theirs: &str) -> Result<(), RowError> {
    let ours = records(told.alloc, ours)?;
    let theirs = records(told.alloc, theirs)?;
    told.put_order(compare_sets(&ours, &theirs))
}

fn tell_tie(told: &mut Told, name: &Name, unique: &str, authority: &str) -> Result<(), RowError> {
    let unique = records(told.alloc, unique)?;
    let authority = records(told.alloc, authority)?;
    told.put_yes(is_lost(told.alloc, name, &unique, &authority)?)
}

fn is_lost(alloc: Global, name: &Name, unique: &[Rr], authority: &[Rr]) -> Result<bool, RowError> {
    if !are_named(name, unique) {
        return Err(RowError::NotUnderstood);
    }
    Ok(loses_tie(alloc, name, unique, authority)?)
}

fn are_named(name: &Name, unique: &[Rr]) -> bool
    ensures { result ≡ list_all (λ rr. folded_eq rr.owner name.now) unique.now }
{
    unique.iter().all(|rr| rr.owner.folded_eq(name))
}

/// A row of the conflicts of a claim: `new` has a count of conflicts and how many ms each is behind the one before, `note` a moment. It
/// tells whether they are a storm.
pub fn storm_row(told: &mut Told, storm: &mut Storm, row: &[&str]) -> Result<(), RowError> {
    match row {
        ["new", count, step] => *storm = storm_of(number(*count)?, milliseconds(*step)?),
        ["note", now] => storm.note(moment(*now)?),
        _ => return Err(RowError::NotUnderstood),
    }
    told.put_yes(storm.stormy())
}

fn storm_of(count: u32, step: u64) -> Storm {
    let mut storm = Storm::new();
    for place in 0..count {
        let ms = step.saturating_mul(u64::from(place)).saturating_add(1000);
        storm.note(Moment::at_most_last(ms));
    }
    storm
}
