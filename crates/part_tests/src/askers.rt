// Rows of the operations that ask for a name.

use dns_record::Key;
use row_words::{RowError, Told, key, name_of, number};
use sd_call::{Request, well_formed};
use sd_index::{Asker, Askers};

/// A row of operations that ask for names: `put` and `take` have a session, an operation and what it queries, `of` tells how many ask
/// for a name.
pub fn asker_row(told: &mut Told, askers: &mut Askers, row: &[&str]) -> Result<(), RowError> {
    let alloc = told.alloc;
    match row {
        ["new", word] => {
            *askers = Askers::new(alloc, u64::from(number::<u32>(*word)?));
            told.put("done")
        }
        ["put", session, op, asked] => {
            put_asker(askers, asker(*session, *op)?, key(*asked)?)?;
            told.put("done")
        }
        ["take", session, op, asked] => {
            take_asker(askers, asker(*session, *op)?, key(*asked)?)?;
            told.put("done")
        }
        ["of", name] => tell_askers(told, askers, *name),
        _ => Err(RowError::NotUnderstood),
    }
}

fn asker(session: &str, op: &str) -> Result<Asker, RowError> {
    Ok(Asker {
        session: u64::from(number::<u32>(session)?),
        op: number(op)?,
    })
}

fn put_asker(askers: &mut Askers, asker: Asker, asked: Key) -> Result<(), RowError> {
    let request = Request::Query {
        kind: asked.kind,
        name: asked.name,
    };
    askers.reserve(1)?;
    if !well_formed(&request) {
        return Err(RowError::NotUnderstood);
    }
    askers.put(&request, asker);
    Ok(())
}

fn take_asker(askers: &mut Askers, asker: Asker, asked: Key) -> Result<(), RowError> {
    let request = Request::Query {
        kind: asked.kind,
        name: asked.name,
    };
    if !well_formed(&request) {
        return Err(RowError::NotUnderstood);
    }
    askers.take(&request, asker);
    Ok(())
}

// How many ask for a name, and whether one does.
fn tell_askers(told: &mut Told, askers: &Askers, name: &str) -> Result<(), RowError> {
    let alloc = told.alloc;
    let name = name_of(name)?;
    let mut found = Vec::new(alloc);
    askers.put_askers(&mut found, &name)?;
    told.put_count("", found.len())?;
    told.put(if askers.has(&name) {
        ", asked for"
    } else {
        ", not asked for"
    })
}
