// The lines that are printed.
ghost use Rattle.std.specs.Prelude.{◌≡◌, ◌++◌, ◌∷◌, [], codes, IfOk};
ghost use Rattle.sd_call.specs.CallText.{answer_text};
ghost use Rattle.sd_command.specs.Lines.{is_good, refused_line, item_line, is_answer, is_refusal};

use sd_call::{Answer, Item, put_answer, put_code};
use std::alloc::{AllocError, Global};

/// What is printed of an item: a line of an answer that came or went, and of a reply only its refusal.
pub fn item_line(alloc: Global, item: &Item) -> Result<Vec<u8>, AllocError>
    ensures { IfOk result (λ line. line.items ≡ item_line item.now) }
{
    match item {
        Item::Reply { code, .. } if is_good(*code) => Ok(Vec::new(alloc)),
        Item::Reply { code, .. } => refused_line(alloc, *code),
        Item::Add { answer, .. } => answer_line(alloc, b"Add ", answer),
        Item::Remove { answer, .. } => answer_line(alloc, b"Rmv ", answer),
    }
}

fn refused_line(alloc: Global, code: i32) -> Result<Vec<u8>, AllocError>
    ensures { IfOk result (λ line. line.items ≡ refused_line code) }
{
    let mut line = Vec::new(alloc);
    line.extend_from_slice(b"refused ")?;
    put_code(&mut line, code)?;
    line.push(b'\n')?;
    Ok(line)
}

fn answer_line(alloc: Global, word: &[u8], answer: &Answer) -> Result<Vec<u8>, AllocError>
    ensures { IfOk result (λ line. line.items ≡ word.now ++ answer_text answer.now ++ 10 ∷ []) }
{
    let mut line = Vec::new(alloc);
    line.extend_from_slice(word)?;
    put_answer(&mut line, answer)?;
    line.push(b'\n')?;
    Ok(line)
}

/// Whether the item is an answer that came or went.
pub fn is_answer(item: &Item) -> bool
    ensures { result ≡ is_answer item.now }
{
    match item {
        Item::Reply { .. } => false,
        Item::Add { .. } | Item::Remove { .. } => true,
    }
}

/// Whether the item is a reply that refuses.
pub fn is_refusal(item: &Item) -> bool
    ensures { result ≡ is_refusal item.now }
{
    match item {
        Item::Reply { code, .. } => !is_good(*code),
        Item::Add { .. } | Item::Remove { .. } => false,
    }
}

// Whether a code is no error.
fn is_good(code: i32) -> bool
    ensures { result ≡ is_good code }
{
    code == 0
}
