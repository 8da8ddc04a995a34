// Rows of names.

use dns_name::{Label, Name, NameError};
use row_words::{RowError, Told, first_word, name_of, quoted, two_parts};

/// `name ..`: what a text is read as, a name's wire form, labels, parent and child, and how two names stand to each other.
pub fn name_row(told: &mut Told, row: &str) -> Result<(), RowError> {
    let (word, rest) = first_word(row);
    match word {
        "read" => put_read(told, quoted(rest)),
        "wire" => told.put_hex(name_of(rest)?.as_wire()),
        "length" => told.put_count("", name_of(rest)?.wire_len()),
        "count" => told.put_count("", name_of(rest)?.count()),
        "label" => put_label(told, rest),
        "parent" => put_parent(told, &name_of(rest)?),
        "child" => put_child(told, rest),
        "compare" => put_order(told, rest),
        "again" => put_again(told, rest),
        "under" => put_under(told, rest),
        "faults" => put_faults(told),
        _ => Err(RowError::NotUnderstood),
    }
}

// The words of a fault.
fn fault_word(fault: NameError) -> &'static str {
    match fault {
        NameError::EmptyLabel => "empty label",
        NameError::LongLabel => "long label",
        NameError::LongName => "long name",
        NameError::BadEscape => "bad escape",
    }
}

// `read TEXT`: the name as it is written, or why the text is none.
fn put_read(told: &mut Told, text: &str) -> Result<(), RowError> {
    match Name::parse_text(text) {
        Ok(name) => told.put_name(&name),
        Err(fault) => told.put(fault_word(fault)),
    }
}

// `label PLACE NAME`: the label at that place, counted from 0.
fn put_label(told: &mut Told, rest: &str) -> Result<(), RowError> {
    let (place, text) = two_parts(rest)?;
    told.put_bytes(name_of(text)?.label(place.parse::<usize>()?))
}

// `parent NAME`
fn put_parent(told: &mut Told, name: &Name) -> Result<(), RowError> {
    match name.parent() {
        Some(parent) => told.put_name(&parent),
        None => told.put("none"),
    }
}

// `child LABEL NAME`: the name with that label in front.
fn put_child(told: &mut Told, rest: &str) -> Result<(), RowError> {
    let (label, text) = two_parts(rest)?;
    let label = Label::new(label.as_bytes()).ok_or(RowError::NotUnderstood)?;
    match name_of(text)?.child(&label) {
        Ok(child) => told.put_name(&child),
        Err(fault) => told.put(fault_word(fault)),
    }
}

// `compare LEFT RIGHT`: their order; they are equal exactly where they are one name.
fn put_order(told: &mut Told, rest: &str) -> Result<(), RowError> {
    let (left, right) = two_parts(rest)?;
    let (left, right) = (name_of(left)?, name_of(right)?);
    told.put_standing(left.folded_cmp(&right), left.folded_eq(&right))
}

// `again LEFT RIGHT`: the order of the name that is made again of a copy's labels, and the right one.
fn put_again(told: &mut Told, rest: &str) -> Result<(), RowError> {
    let (left, right) = two_parts(rest)?;
    let again = name_of(left)?.copy().labels().to_name();
    told.put_order(again.folded_cmp(&name_of(right)?))
}

// `under NAME TOP`
fn put_under(told: &mut Told, rest: &str) -> Result<(), RowError> {
    let (name, top) = two_parts(rest)?;
    told.put_yes(name_of(name)?.under(&name_of(top)?))
}

// `faults`: the number and the words of each.
fn put_faults(told: &mut Told) -> Result<(), RowError> {
    let faults = [
        NameError::EmptyLabel,
        NameError::LongLabel,
        NameError::LongName,
        NameError::BadEscape,
    ];
    for (place, fault) in faults.iter().enumerate() {
        told.put_comma(place)?;
        told.put_numbered(*fault as u8, fault_word(*fault))?;
    }
    Ok(())
}
