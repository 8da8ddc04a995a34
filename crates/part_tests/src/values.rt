// Rows of values by name.

use by_name::{ByName, Place};
use dns_name::Name;
use row_words::{RowError, Told, name_of, number};

/// A row of values by name: `put` gives a name its first value, `get` tells it.
pub fn value_row(told: &mut Told, values: &mut ByName<u32>, row: &[&str]) -> Result<(), RowError> {
    let alloc = told.alloc;
    match row {
        ["new", key] => {
            *values = ByName::new(alloc, u64::from(number::<u32>(*key)?));
            told.put("done")
        }
        ["empty"] => told.put_yes(values.is_empty()),
        ["count"] => told.put_count("", values.len()),
        ["put", name, value] => {
            put_value(values, &name_of(*name)?, number(*value)?)?;
            told.put("done")
        }
        ["get", name] => told.put_number(found(values, &name_of(*name)?)),
        _ => Err(RowError::NotUnderstood),
    }
}

fn found(values: &ByName<u32>, name: &Name) -> Option<u64> {
    let found = values.get(&Place::new(name, 0)).copied();
    found.map(u64::from)
}

// Puts the first value of a name that has none.
fn put_value(values: &mut ByName<u32>, name: &Name, value: u32) -> Result<(), RowError> {
    values.reserve(1)?;
    let place = Place::new(name, 0);
    if values.index_of(&place).is_some() {
        return Err(RowError::NotUnderstood);
    }
    values.push(place, value);
    Ok(())
}
