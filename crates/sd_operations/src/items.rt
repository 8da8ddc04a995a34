// What an operation has no more after an event, and what it has newly.
ghost use Rattle.std.specs.Prelude.{IfOk, OnOk, length, map, ◌++◌, ◌<◌, ◌≡◌};
ghost use Rattle.std.specs.List.{list_any};
ghost use Rattle.std.specs.List.Sorted.{IsSorted};
ghost use Rattle.std.specs.Result.{is_ok};
ghost use Rattle.lists.specs.Lists.{without};
ghost use Rattle.sd_call.specs.declared.item.Item.TheVariants as item;
ghost use Rattle.sd_call.specs.Answers.{answer_cmp, answer_eq};

use mdns_history::Items;
use sd_call::{Answer, Item, answer_cmp};
use std::alloc::AllocError;

/// Removes what an operation had and has no more. Refused only for want of memory.
pub fn put_removes(
    items: &mut Items,
    op: u32,
    had: &[Answer],
    has: &[Answer],
) -> Result<(), AllocError>
    requires { IsSorted answer_cmp has.now }
    ensures { OnOk result (items.new ≡ items.old ++ map (λ answer. item.Remove op answer) (without answer_eq had.now has.now)) }
{
    let mut near = 0;
    for answer in had {
        match place_near(answer, has, near) {
            Ok(place) => near = place + 1,
            Err(place) => {
                near = place;
                let answer = answer.copy()?;
                items.push(Item::Remove { op, answer })?;
            }
        }
    }
    Ok(())
}

/// Adds what an operation has and hadn't before. Refused only for want of memory.
pub fn put_adds(
    items: &mut Items,
    op: u32,
    has: &[Answer],
    had: &[Answer],
) -> Result<(), AllocError>
    requires { IsSorted answer_cmp had.now }
    ensures { OnOk result (items.new ≡ items.old ++ map (λ answer. item.Add op answer) (without answer_eq has.now had.now)) }
{
    let mut near = 0;
    for answer in has {
        match place_near(answer, had, near) {
            Ok(place) => near = place + 1,
            Err(place) => {
                near = place;
                let answer = answer.copy()?;
                items.push(Item::Add { op, answer })?;
            }
        }
    }
    Ok(())
}

// The place of an answer of the same bytes among others, which are in order; where there is none, the place at which one would stand. It
// is looked for at a place first: most stand where the one before them is followed.
fn place_near(answer: &Answer, others: &[Answer], near: usize) -> Result<usize, usize>
    requires { IsSorted answer_cmp others.now }
    ensures found { is_ok result ≡ list_any (answer_eq answer.now) others.now }
    ensures within { IfOk result (λ place. place < length others.now) }
{
    if near < others.len() && answer_cmp(answer, &others[near]).is_eq() {
        return Ok(near);
    }
    others.binary_search_by(|other| answer_cmp(other, answer))
}
