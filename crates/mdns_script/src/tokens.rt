// The tokens of lines: names, labels, service types and TXT data.
ghost use Rattle.std.specs.Prelude.{◌≡◌, ◌==◌, ◌++◌, ◌∷◌, ◌≤◌, length, IfOk, IfSome, OnOk};
ghost use Rattle.std.specs.List.{slice_split};
ghost use Rattle.std.specs.Option.{option_map};
ghost use Rattle.txt_record.specs.Strings.{txt_data};
ghost use Rattle.mdns_script.specs.Tokens.{text_of, is_whole, is_token, token_of, name_of, item_byte, type_read, label_bytes, type_bytes, label_of, type_of, label_text, host_label_of, string_of, strings_of, short_txt, txt_of};

use arrayvec::ArrayVec;
use bytes::Bytes;
use dns_name::{Label, Name, TextItem, TextItems, read_label};
use number_text::{cut_at, is_same};
use sd_call::Text;
use std::alloc::{AllocError, Global};

/// The name that a token spells.
pub(crate) fn name(bytes: &[u8]) -> Option<Name>
    ensures { result ≡ name_of bytes.now }
{
    let token = token(bytes)?;
    Name::parse_text(token).ok()
}

/// The text that a label of a request stands for. Refused only for want of memory.
pub(crate) fn label(alloc: Global, bytes: &[u8]) -> Result<Option<Text>, AllocError>
    ensures { IfOk result (λ found. found ≡ label_of bytes.now) }
{
    match label_bytes(bytes) {
        Some(bytes) => text(alloc, bytes.as_slice()),
        None => Ok(None),
    }
}

/// The text that a service type of a request stands for. Refused only for want of memory.
pub(crate) fn regtype(alloc: Global, bytes: &[u8]) -> Result<Option<Text>, AllocError>
    ensures { IfOk result (λ found. found ≡ type_of bytes.now) }
{
    match type_bytes(bytes) {
        Some(bytes) => text(alloc, bytes.as_slice()),
        None => Ok(None),
    }
}

/// The label of a host that a token stands for.
pub(crate) fn host_label(bytes: &[u8]) -> Option<Label>
    ensures { result ≡ host_label_of bytes.now }
{
    let label: ArrayVec<u8, 63> = read_label(token(bytes)?.as_bytes())?;
    host_text(label.as_slice())
}

// Text as a label.
fn host_text(bytes: &[u8]) -> Option<Label>
    ensures { result ≡ label_text bytes.now }
{
    let text = characters(bytes)?;
    Label::new(text.as_bytes())
}

/// The TXT data of the tokens between spaces. Refused only for want of memory.
pub(crate) fn txt(alloc: Global, bytes: &[u8]) -> Result<Option<Bytes>, AllocError>
    ensures { IfOk result (λ found. found ≡ txt_of bytes.now) }
{
    if is_same(bytes, b"-") {
        return Ok(Some(Bytes::new()));
    }
    match strings(alloc, bytes)? {
        Some(strings) => short_txt(strings),
        None => Ok(None),
    }
}

// TXT data that are short enough.
fn short_txt(strings: Vec<u8>) -> Result<Option<Bytes>, AllocError>
    ensures { IfOk result (λ found. found ≡ short_txt strings.items) }
{
    if strings.len() <= 8192 {
        Ok(Some(Bytes::from_vec(strings)?))
    } else {
        Ok(None)
    }
}

// The data of the strings between spaces.
fn strings(alloc: Global, bytes: &[u8]) -> Result<Option<Vec<u8>>, AllocError>
    ensures { IfOk result (λ found. option_map (λ txt. txt.items) found
        ≡ option_map txt_data (strings_of (slice_split (λ b. b == 32) bytes.now))) }
{
    let mut txt = Vec::new(alloc);
    let mut rest = bytes;
    while let Some((token, after)) = cut_at(rest, b' ') {
        let Some(string) = string(token) else {
            return Ok(None);
        };
        put_string(&mut txt, string.as_slice())?;
        rest = after;
    }
    let Some(last) = string(rest) else {
        return Ok(None);
    };
    put_string(&mut txt, last.as_slice())?;
    Ok(Some(txt))
}

// Appends a string behind its length.
fn put_string(txt: &mut Vec<u8>, string: &[u8]) -> Result<(), AllocError>
    requires { length string.now ≤ 255 }
    ensures { OnOk result (txt.new.items ≡ txt.old.items ++ length string.now ∷ string.now) }
{
    txt.push(string.len() as u8)?;
    txt.extend_from_slice(string)?;
    Ok(())
}

fn string(text: &[u8]) -> Option<ArrayVec<u8, 255>>
    ensures { option_map (λ string. string.items) result ≡ string_of text.now }
{
    read_label(token(text)?.as_bytes())
}

fn label_bytes(bytes: &[u8]) -> Option<ArrayVec<u8, 1024>>
    ensures { option_map (λ label. label.items) result ≡ label_bytes bytes.now }
{
    if is_same(bytes, b"\\e") {
        return Some(ArrayVec::new());
    }
    read_label(token(bytes)?.as_bytes())
}

fn type_bytes(bytes: &[u8]) -> Option<ArrayVec<u8, 1024>>
    ensures { option_map (λ regtype. regtype.items) result ≡ type_bytes bytes.now }
{
    if is_same(bytes, b"\\e") {
        return Some(ArrayVec::new());
    }
    read_type(token(bytes)?.as_bytes())
}

// The bytes of a service type: a bare dot is itself.
fn read_type<const N: usize>(bytes: &[u8]) -> Option<ArrayVec<u8, N>>
    ensures { option_map (λ regtype. regtype.items) result ≡ type_read N bytes.now }
{
    let mut regtype = ArrayVec::new();
    let mut items = TextItems::new(bytes);
    while let Some(item) = items.next_item() {
        regtype.try_push(item_byte(item)?).ok()?;
    }
    Some(regtype)
}

// The byte that an item of a service type stands for.
fn item_byte(item: TextItem) -> Option<u8>
    ensures { result ≡ item_byte item }
{
    match item {
        TextItem::Byte(byte) => Some(byte),
        TextItem::Dot => Some(b'.'),
        TextItem::Bad => None,
    }
}

// Bytes as a text, where they are UTF-8.
fn text(alloc: Global, bytes: &[u8]) -> Result<Option<Text>, AllocError>
    requires { length bytes.now ≤ 1024 }
    ensures { IfOk result (λ found. found ≡ text_of bytes.now) }
{
    match characters(bytes) {
        Some(string) => Text::new(alloc, string),
        None => Ok(None),
    }
}

// The characters of a token.
fn token(bytes: &[u8]) -> Option<&str>
    ensures { option_map (λ token. token.now) result ≡ token_of bytes.now }
{
    let text = characters(bytes)?;
    if is_token(text.as_bytes()) {
        Some(text)
    } else {
        None
    }
}

// Whether there are bytes, and no space among them.
fn is_token(bytes: &[u8]) -> bool
    ensures { result ≡ is_token bytes.now }
{
    !bytes.is_empty() && is_whole(bytes)
}

// Whether no space is among the bytes.
fn is_whole(bytes: &[u8]) -> bool
    ensures { result ≡ is_whole bytes.now }
{
    bytes.iter().all(|byte| *byte != b' ')
}

// The characters that bytes are.
fn characters(bytes: &[u8]) -> Option<&str>
    ensures { option_map (λ text. text.now) result ≡ text_of bytes.now }
{
    match str::from_utf8(bytes) {
        Ok(text) => Some(text),
        Err(_) => None,
    }
}
