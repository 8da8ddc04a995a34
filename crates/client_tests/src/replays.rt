// Rows of what a client holds that replays its items.
use row_words::{RowError, name_of, number, word, yes_or_no};
use sd_call::{Answer, Item, Replayed, Verb, answer_cmp};
use std::alloc::Global;

/// `replay add 1 NAME` and others: an item that the client takes in, or an answer that it has.
pub fn row(alloc: Global, kept: &mut Replayed, words: &[&str]) -> Result<String, RowError> {
    match words {
        ["new"] => renew_row(alloc, kept),
        ["has", ..] => has_row(alloc, kept, words),
        _ => take_row(alloc, kept, item_of(words)?),
    }
}

fn renew_row(alloc: Global, kept: &mut Replayed) -> Result<String, RowError> {
    *kept = Replayed::new(alloc);
    word(alloc, "done")
}

fn has_row(alloc: Global, kept: &Replayed, words: &[&str]) -> Result<String, RowError> {
    match words {
        ["has", op, place] => {
            let answer = kept.answer(number(op)?, number(place)?);
            yes_or_no(alloc, answer.is_some())
        }
        ["has", op, place, name] => {
            let answer = kept.answer(number(op)?, number(place)?);
            yes_or_no(alloc, is_found(answer, name)?)
        }
        _ => Err(RowError::NotUnderstood),
    }
}

fn take_row(alloc: Global, kept: &mut Replayed, item: Item) -> Result<String, RowError> {
    kept.reserve(1)?;
    let is_taken = kept.replay(item);
    word(alloc, if is_taken { "taken" } else { "refused" })
}

fn item_of(words: &[&str]) -> Result<Item, RowError> {
    match words {
        ["reply", op, verb, code] => reply_of(op, verb, code),
        ["add", op, name] => add_of(number(op)?, name),
        ["remove", op, name] => remove_of(number(op)?, name),
        _ => Err(RowError::NotUnderstood),
    }
}

fn reply_of(op: &str, verb: &str, code: &str) -> Result<Item, RowError> {
    let op = number(op)?;
    let verb = verb_of(verb)?;
    let code = number(code)?;
    Ok(Item::Reply { op, verb, code })
}

fn add_of(op: u32, name: &str) -> Result<Item, RowError> {
    let answer = found(name)?;
    Ok(Item::Add { op, answer })
}

fn remove_of(op: u32, name: &str) -> Result<Item, RowError> {
    let answer = found(name)?;
    Ok(Item::Remove { op, answer })
}

fn verb_of(word: &str) -> Result<Verb, RowError> {
    match word {
        "start" => Ok(Verb::Start),
        "stop" => Ok(Verb::Stop),
        _ => Err(RowError::NotUnderstood),
    }
}

fn found(name: &str) -> Result<Answer, RowError> {
    Ok(Answer::Found {
        instance: name_of(name)?,
    })
}

fn is_instance(answer: &Answer, name: &str) -> Result<bool, RowError> {
    let found = found(name)?;
    Ok(answer_cmp(answer, &found).is_eq())
}

// Whether an answer is the one that found an instance.
fn is_found(answer: Option<&Answer>, name: &str) -> Result<bool, RowError> {
    match answer {
        Some(answer) => is_instance(answer, name),
        None => Ok(false),
    }
}
