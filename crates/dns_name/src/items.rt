ghost use Rattle.std.specs.Prelude.{◌≡◌, ◌≤◌, [], ◌∷◌, length, take, drop, IfSome, MatchOption};
ghost use Rattle.dns_name.specs.TextItems.{items_of, item_at, escaped, decimal_byte, label_read};
ghost use Rattle.std.specs.Option.{option_map};

use arrayvec::ArrayVec;
use std::marker::Model;

/// What a text of a label or a name is made of. (RFC 1035 5.1)
#[derive(Clone, Copy, Debug, PartialEq, Eq)]
pub enum TextItem {
    /// A dot that no backslash stands before.
    Dot,
    /// A byte of a label, as itself or as an escape.
    Byte(u8),
    /// A backslash that begins no escape.
    Bad,
}

/// The items of a text that are still to come, from the left.
#[derive(Drop)]
pub struct TextItems<'a> {
    text: &'a [u8],
}

impl<'a> Model for TextItems<'a> {
    ghost use Rattle.std.specs.Prelude.{List};
    ghost use Rattle.dns_name.specs.declared.items.TextItem.{TextItem};

    ghost Value = { List TextItem };

    ghost use Rattle.dns_name.specs.TextItems.{items_of};

    ghost view = { λ a. items_of a.text.now };
}

impl<'a> TextItems<'a> {
    /// The items of these bytes.
    pub fn new(text: &'a [u8]) -> Self
        ensures { result ≡ items_of text.now }
    {
        TextItems { text }
    }

    /// Takes the next item, where one is left.
    pub fn next_item(&mut self) -> Option<TextItem>
        ensures { MatchOption result ((self.old ≡ []) × (self.new ≡ [])) (λ item. self.old ≡ item ∷ self.new) }
    {
        let (first, rest) = self.text.split_first()?;
        let (item, after) = begun(*first, rest);
        self.text = after;
        Some(item)
    }
}

/// The bytes of a text that is one label or string: `None` exactly where a dot stands bare in it, a backslash begins
/// no escape, or the bytes are more than `N`.
pub fn read_label<const N: usize>(text: &[u8]) -> Option<ArrayVec<u8, N>>
    ensures { option_map (λ bytes. bytes.items) result ≡ label_read N text.now }
{
    let mut bytes = ArrayVec::new();
    let mut items = TextItems::new(text);
    while let Some(item) = items.next_item() {
        let TextItem::Byte(byte) = item else {
            return None;
        };
        bytes.try_push(byte).ok()?;
    }
    Some(bytes)
}

// The item that a byte begins, by the text behind it, and the text behind the item.
fn begun(byte: u8, text: &[u8]) -> (TextItem, &[u8])
    ensures item { result.0 ≡ (item_at byte text.now).0 }
    ensures after { result.1.now ≡ drop (item_at byte text.now).1 text.now }
{
    match byte {
        b'.' => (TextItem::Dot, text),
        b'\\' => escape(text),
        byte => (TextItem::Byte(byte), text),
    }
}

// The item of a backslash, by the text behind it, and the text behind the item.
fn escape(text: &[u8]) -> (TextItem, &[u8])
    ensures item { result.0 ≡ (escaped text.now).0 }
    ensures after { result.1.now ≡ drop (escaped text.now).1 text.now }
{
    let Some((byte, after)) = text.split_first() else {
        return (TextItem::Bad, text);
    };
    if *byte == b'.' || *byte == b'\\' {
        return (TextItem::Byte(*byte), after);
    }
    match decimal(text) {
        Some(value) => (TextItem::Byte(value), &text[3..]),
        None => (TextItem::Bad, text),
    }
}

// The byte that the first three bytes spell, as decimal digits.
fn decimal(text: &[u8]) -> Option<u8>
    ensures value { result ≡ decimal_byte (take 3 text.now) }
    ensures three { IfSome result (λ _. 3 ≤ length text.now) }
{
    if text.len() < 3 {
        return None;
    }
    let (a, b, c) = (text[0], text[1], text[2]);
    if !(a.is_ascii_digit() && b.is_ascii_digit() && c.is_ascii_digit()) {
        return None;
    }
    let value = 100 * u16::from(a - b'0') + 10 * u16::from(b - b'0') + u16::from(c - b'0');
    u8::try_from(value).ok()
}
