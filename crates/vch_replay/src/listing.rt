//! The text of a recipe array's records, and the lines of its faults.
ghost use Rattle.std.specs.Prelude.{◌≡◌, ◌+◌, ◌++◌, length, take, OnOk, IfOk, Some};
ghost use Rattle.std.specs.List.{flat_map};
ghost use Rattle.vch_replay.specs.Lines as lines;

use std::alloc::Global;
use vch_base::NoMemory;
use vch_recipe::{Recipe, RecipeFault, Recipes};
use vch_text::{push_hex, push_spaced, push_text};

/// Appends the line of a record.
fn push_recipe(out: &mut Vec<u8>, recipe: &Recipe) -> Result<(), NoMemory>
    ensures { OnOk result (out.new.items ≡ out.old.items ++ lines.recipe_line recipe.now) }
{
    push_text(out, b"recipe")?;
    push_spaced(out, recipe.key)?;
    push_spaced(out, recipe.command)?;
    push_spaced(out, recipe.previous)?;
    push_text(out, b" ")?;
    push_hex(out, recipe.content.as_slice())?;
    push_text(out, b"\n")
}

/// Appends the lines of records.
fn push_recipes(out: &mut Vec<u8>, records: &Recipes) -> Result<(), NoMemory>
    ensures { OnOk result (out.new.items ≡ out.old.items ++ flat_map lines.recipe_line records.now) }
{
    for i in 0..records.len() {
        push_recipe(out, records.at(i))?;
    }
    Ok(())
}

/// A line for each record, and the line `end`.
pub fn listing(alloc: Global, records: &Recipes) -> Result<Vec<u8>, NoMemory>
    ensures { IfOk result (λ text. text.items ≡ lines.recipe_text records.now) }
{
    let mut out = Vec::new(alloc);
    push_recipes(&mut out, records)?;
    push_text(&mut out, b"end\n")?;
    Ok(out)
}

/// The line of an array that is too large.
fn size_line(alloc: Global, size: usize) -> Result<Vec<u8>, NoMemory>
    ensures { IfOk result (λ line. line.items ≡ lines.size_fault size) }
{
    let mut out = Vec::new(alloc);
    push_text(&mut out, b"fault size")?;
    push_spaced(&mut out, size)?;
    push_text(&mut out, b"\n")?;
    Ok(out)
}

/// The line of a header that is cut.
fn header_line(alloc: Global, at: usize, left: usize) -> Result<Vec<u8>, NoMemory>
    ensures { IfOk result (λ line. line.items ≡ lines.header_fault at left) }
{
    let mut out = Vec::new(alloc);
    push_text(&mut out, b"fault header at")?;
    push_spaced(&mut out, at)?;
    push_text(&mut out, b" left")?;
    push_spaced(&mut out, left)?;
    push_text(&mut out, b"\n")?;
    Ok(out)
}

/// The line of a content that is cut.
fn content_line(alloc: Global, at: usize, wanted: u32, left: usize) -> Result<Vec<u8>, NoMemory>
    ensures { IfOk result (λ line. line.items ≡ lines.content_fault at wanted left) }
{
    let mut out = Vec::new(alloc);
    push_text(&mut out, b"fault content at")?;
    push_spaced(&mut out, at)?;
    push_text(&mut out, b" wanted")?;
    push_spaced(&mut out, wanted)?;
    push_text(&mut out, b" left")?;
    push_spaced(&mut out, left)?;
    push_text(&mut out, b"\n")?;
    Ok(out)
}

/// The line of the first fault of a recipe array. Where that is out of memory, there is none, and it is passed on.
pub fn recipe_fault_line(alloc: Global, fault: RecipeFault) -> Result<Vec<u8>, NoMemory>
    ensures { IfOk result (λ line. lines.recipe_fault fault ≡ Some line.items) }
{
    match fault {
        RecipeFault::TooLarge { size } => size_line(alloc, size),
        RecipeFault::HeaderCut { at, left } => header_line(alloc, at, left),
        RecipeFault::ContentCut { at, wanted, left } => content_line(alloc, at, wanted, left),
        RecipeFault::NoMemory { cause } => Err(cause),
    }
}
