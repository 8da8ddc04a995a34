// Rows of service names.
use dns_name::{Label, Name};
use row_words::{
    RowError, bytes_of, label_of, name_of, number, shown, text_from, text_of, word, yes_or_no,
};
use sd_name::*;
use std::alloc::Global;

/// `service type TEXT` and others: service types, the names of services, and labels.
pub fn row(alloc: Global, words: &[&str]) -> Result<String, RowError> {
    match words {
        ["type", text] => type_row(alloc, text),
        ["full", label, regtype] => full_row(alloc, label, regtype),
        ["subtype", place, regtype] => subtype_row(alloc, number(place)?, regtype),
        ["types"] => name_text(alloc, &types_name()),
        ["split", name] => split_row(alloc, name),
        _ => label_row(alloc, words),
    }
}

// Labels with a number, and whether a label is one of a service.
fn label_row(alloc: Global, words: &[&str]) -> Result<String, RowError> {
    match words {
        ["renamed", place, label] => renamed_row(alloc, number(place)?, label),
        ["host", place, label] => host_row(alloc, number(place)?, label),
        ["label", label] => is_label_row(alloc, label),
        _ => Err(RowError::NotUnderstood),
    }
}

fn renamed_row(alloc: Global, number: u32, label: &str) -> Result<String, RowError> {
    let label = label_of(alloc, label)?;
    label_text(alloc, &renamed(&label, number))
}

fn host_row(alloc: Global, number: u32, label: &str) -> Result<String, RowError> {
    let label = label_of(alloc, label)?;
    label_text(alloc, &host_renamed(&label, number))
}

fn is_label_row(alloc: Global, label: &str) -> Result<String, RowError> {
    let label = bytes_of(alloc, label)?;
    yes_or_no(alloc, is_service_label(&label))
}

// How many subtypes a service type has, where none stands past the last.
fn type_row(alloc: Global, text: &str) -> Result<String, RowError> {
    let text = text_of(alloc, text)?;
    let Ok(regtype) = RegType::parse(text.as_str()) else {
        return word(alloc, "none");
    };
    let count = regtype.subtype_count();
    match regtype.subtype(count) {
        Some(_) => word(alloc, "more subtypes than are counted"),
        None => Ok(format!(in alloc; "{count} subtypes")?),
    }
}

fn full_row(alloc: Global, label: &str, regtype: &str) -> Result<String, RowError> {
    let label = label_of(alloc, label)?;
    let regtype = regtype_of(regtype)?;
    name_text(alloc, &full_name(&label, &regtype))
}

// The subtype at a place, and the name at which it is browsed.
fn subtype_row(alloc: Global, place: usize, regtype: &str) -> Result<String, RowError> {
    let regtype = regtype_of(regtype)?;
    let Some(name) = regtype.subtype_name(place) else {
        return word(alloc, "none");
    };
    let Some(subtype) = regtype.subtype(place) else {
        return word(alloc, "a name alone");
    };
    let mut out = shown(alloc, subtype.as_slice())?;
    out.push_str(" at ")?;
    out.push_str(name.write_text().as_str())?;
    Ok(out)
}

fn split_row(alloc: Global, name: &str) -> Result<String, RowError> {
    let Some((label, rest)) = split_full(&name_of(name)?) else {
        return word(alloc, "none");
    };
    let mut out = shown(alloc, label.as_slice())?;
    out.push(' ')?;
    out.push_str(rest.write_text().as_str())?;
    Ok(out)
}

fn regtype_of(text: &str) -> Result<RegType, RowError> {
    match RegType::parse(text) {
        Ok(regtype) => Ok(regtype),
        Err(_) => Err(RowError::NotUnderstood),
    }
}

fn name_text(alloc: Global, name: &Name) -> Result<String, RowError> {
    word(alloc, name.write_text().as_str())
}

// The text of a label, as it stands.
fn label_text(alloc: Global, label: &Label) -> Result<String, RowError> {
    text_from(Vec::from_slice(alloc, label.as_slice())?)
}
