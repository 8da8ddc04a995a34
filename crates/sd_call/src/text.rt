// Short text of a client.
ghost use Rattle.std.specs.Prelude.{◌≡◌, ◌≤◌, ◌↔◌, length, IsSome, IfSome, IfOk};

use std::alloc::{AllocError, Global};
use std::marker::Model;

/// Text of a client: UTF-8 of at most 1024 bytes.
#[derive(Drop)]
pub struct Text {
    string: String,
}

impl Model for Text {
    ghost use Rattle.std.specs.Prelude.{List, ℕ, length, ◌≤◌, string_bytes};

    ghost Value = { List ℕ };

    ghost view = { λ a. string_bytes a.string };

    ghost invariant = { λ a. length (string_bytes a.string) ≤ 1024 };
}

impl Text {
    /// The text of these bytes, and none exactly where they pass 1024.
    pub fn new(alloc: Global, string: &str) -> Result<Option<Text>, AllocError>
        ensures found { IfOk result (λ found. IsSome found ↔ (length string.now ≤ 1024)) }
        ensures value { IfOk result (λ found. IfSome found (λ text. text ≡ string.now)) }
    {
        if string.len() > 1024 {
            return Ok(None);
        }
        let string = String::from_str(alloc, string)?;
        Ok(Some(Text { string }))
    }

    /// Its characters.
    pub fn as_str(&self) -> &str
        ensures text { result.now ≡ self.now }
        ensures short { length result.now ≤ 1024 }
    {
        self.string.as_str()
    }

    /// An equal text. Refused only for want of memory.
    pub fn copy(&self, alloc: Global) -> Result<Text, AllocError>
        ensures { IfOk result (λ copy. copy ≡ self.now) }
    {
        let string = String::from_str(alloc, self.string.as_str())?;
        Ok(Text { string })
    }
}
