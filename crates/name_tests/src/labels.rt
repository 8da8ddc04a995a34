// Rows of labels, and of a name that is built of them.
ghost use Rattle.std.specs.Prelude.{◌<◌};

use arrayvec::ArrayString;
use dns_name::{Label, Name, TextItem, TextItems, read_label, write_label_byte};
use row_words::{RowError, Told, first_word, name_of, quoted, two_parts};

/// `label ..`: the bytes of a label's text, its text items, and a byte as text.
pub fn label_row(told: &mut Told, row: &str) -> Result<(), RowError> {
    let (word, rest) = first_word(row);
    match word {
        "new" => put_label(told, quoted(rest)),
        "read" => put_read(told, rest),
        "byte" => put_byte(told, rest),
        "items" => put_items(told, rest),
        _ => Err(RowError::NotUnderstood),
    }
}

/// `built ..`: a name from the root on, label by label.
pub fn built_row(told: &mut Told, name: &mut Name, row: &str) -> Result<(), RowError> {
    match first_word(row) {
        ("root", _) => *name = Name::root(),
        ("label", text) => push_label(name, &label_of(text)?)?,
        ("bytes", text) => push_bytes(name, &label_of(text)?)?,
        ("exact", text) => return told.put_yes(name.exact_eq(&name_of(text)?)),
        ("rest", _) => return put_rest(told, name),
        _ => return Err(RowError::NotUnderstood),
    }
    told.put_name(name)
}

// The label that stands in a row.
fn label_of(text: &str) -> Result<Label, RowError> {
    Label::new(text.as_bytes()).ok_or(RowError::NotUnderstood)
}

// `new TEXT`: the label of these bytes.
fn put_label(told: &mut Told, text: &str) -> Result<(), RowError> {
    match Label::new(text.as_bytes()) {
        Some(label) => told.put_bytes(Some(label.as_slice())),
        None => told.put_bytes(None),
    }
}

// `read MOST TEXT`: the bytes of a text of one label, which are so many at most.
fn put_read(told: &mut Told, rest: &str) -> Result<(), RowError> {
    let (most, text) = two_parts(rest)?;
    match most {
        "3" => put_label_text::<3>(told, text),
        "63" => put_label_text::<63>(told, text),
        _ => Err(RowError::NotUnderstood),
    }
}

fn put_label_text<const N: usize>(told: &mut Told, text: &str) -> Result<(), RowError>
    requires { N < 256 }
{
    match read_label::<N>(text.as_bytes()) {
        Some(bytes) => told.put_bytes(Some(bytes.as_slice())),
        None => told.put_bytes(None),
    }
}

// `byte NUMBER`: that byte as it is written in a name.
fn put_byte(told: &mut Told, number: &str) -> Result<(), RowError> {
    let mut text = ArrayString::<4>::new();
    write_label_byte(&mut text, number.parse::<u8>()?);
    told.put(text.as_str())
}

// `items TEXT`: the items of the text, up to a bad one.
fn put_items(told: &mut Told, text: &str) -> Result<(), RowError> {
    let mut items = TextItems::new(text.as_bytes());
    for place in 0..text.len() {
        let Some(item) = items.next_item() else {
            return Ok(());
        };
        told.put_comma(place)?;
        match item {
            TextItem::Dot => told.put("dot")?,
            TextItem::Byte(byte) => told.put_hex(&[byte])?,
            TextItem::Bad => return told.put("bad"),
        }
    }
    Ok(())
}

// Puts a label behind a name that has room for it.
fn push_label(name: &mut Name, label: &Label) -> Result<(), RowError> {
    if label.as_slice().len() >= 255usize.saturating_sub(name.wire_len()) {
        return Err(RowError::NotUnderstood);
    }
    name.push(label);
    Ok(())
}

// The same, by the bytes of the label.
fn push_bytes(name: &mut Name, label: &Label) -> Result<(), RowError> {
    let bytes = label.as_slice();
    if bytes.len() >= 255usize.saturating_sub(name.wire_len()) {
        return Err(RowError::NotUnderstood);
    }
    name.push_bytes(bytes);
    Ok(())
}

// `rest`: the first label, and the wire form of the labels behind it.
fn put_rest(told: &mut Told, name: &Name) -> Result<(), RowError> {
    let mut labels = name.labels();
    told.put_bytes(labels.next_label())?;
    told.put(", then ")?;
    told.put_bytes(Some(labels.as_wire()))
}
