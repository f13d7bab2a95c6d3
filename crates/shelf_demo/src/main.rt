// Both shelves with both kinds of value: what they give back, what they refuse, and what the lent memory holds afterwards.
#![tactic(auto)]

ghost use Rattle.std.specs.Prelude.{◌≡◌, ◌<◌, ◌≤◌, [], ◌++◌, length, drop, Some, None, Ok, slice_set};
ghost use Rattle.std.specs.Option.{option_map_or};
ghost use Rattle.encoding.specs.Frames.{frame};
ghost use Rattle.shelves.specs.Adding.{if_full};
ghost use Rattle.shelves.specs.Faults.{shelf_fault_number};
ghost use Rattle.shelves.specs.declared.fault.ShelfFault.TheVariants.{Full, NoSuchPlace};
ghost use Rattle.values.specs.Amounts.{amount_bytes};

use shelves::any_shelf::add_then_fetch;
use shelves::byte_shelf::ByteShelf;
use shelves::cell_shelf::CellShelf;
use shelves::fault::ShelfFault;
use shelves::shelf::Shelf;
use std::{fmt, io};
use values::amount::{Amount, AmountCell};
use values::currency::Currency;
use values::standing::{Day, Reason, Standing, StandingCell};
use values::value::Value;

// Keeps one value in the caller's cells: once the shelf is gone, the caller knows all of them.
fn store_in_cells<V: Value>(cells: &mut [V::Cell], value: V)
    ensures { 0 < length cells.old → cells.new ≡ slice_set cells.old 0 (V.Value.cell value) }
{
    let mut shelf = CellShelf::new(cells);
    let _ = shelf.add(value);
}

// Keeps one amount in the caller's bytes: once the shelf is gone, the caller knows all of them.
fn store_in_bytes(bytes: &mut [u8], amount: Amount)
    ensures { 16 ≤ length bytes.old → bytes.new ≡ frame 1 (amount_bytes amount) ++ drop 16 bytes.old }
{
    let mut shelf = ByteShelf::new(bytes);
    let _ = shelf.add(amount);
}

// Why a value that is added is refused, if it is.
fn refusal_to_add<S: Shelf>(shelf: &mut S, value: S::Value) -> Option<ShelfFault>
    ensures { result ≡ if_full (S.Shelf.items shelf.old) (S.Shelf.room shelf.old) (Some Full) None }
{
    shelf.add(value).err()
}

// Why the place behind the last is refused, which every shelf lacks.
fn refusal_to_fetch<S: Shelf>(shelf: &S) -> Option<ShelfFault>
    ensures { result ≡ Some NoSuchPlace }
{
    shelf.fetch(shelf.len()).err()
}

// What is written of a refusal: its number, or 0 for none.
fn number(refusal: Option<ShelfFault>) -> u8
    ensures { result ≡ option_map_or shelf_fault_number refusal 0 }
{
    refusal.map_or(0, |fault| fault.number())
}

// Fills a shelf with room for two: gives back the second value, and the numbers of the refusals of a third and of a place that the shelf lacks.
fn fill<S: Shelf>(
    shelf: &mut S,
    first: S::Value,
    second: S::Value,
) -> Result<(S::Value, u8, u8), ShelfFault>
    ensures { S.Shelf.items shelf.old ≡ [] → S.Shelf.room shelf.old ≡ 2 → result ≡ Ok (second, 13, 21) }
{
    shelf.add(first)?;
    let again = add_then_fetch(shelf, second)?;
    let full = refusal_to_add(shelf, first);
    let missing = refusal_to_fetch(shelf);
    Ok((again, number(full), number(missing)))
}

// Writes bytes in hexadecimal.
fn show(rt: &HostRuntime, bytes: &[u8]) -> io::Result<()> {
    print!(rt; "bytes:")?;
    for byte in bytes {
        print!(rt; " {byte:02X}")?;
    }
    println!(rt; "")
}

// Two values of a kind in cells and in bytes that have room for two.
fn in_both<V: Value + fmt::Debug>(
    rt: &HostRuntime,
    kind: &str,
    [first, second]: [V; 2],
    cells: &mut [V::Cell],
    bytes: &mut [u8],
) -> io::Result<()> {
    let kept = fill(&mut CellShelf::new(cells), first, second);
    println!(rt; "{kind} in cells: {kept:?}")?;
    let kept = fill(&mut ByteShelf::new(bytes), first, second);
    println!(rt; "{kind} in bytes: {kept:?}")?;
    show(rt, bytes)
}

// The three refusals of a value.
fn refusals(rt: &HostRuntime) -> io::Result<()> {
    if let Err(fault) = Amount::from_numbers(756, 1) {
        println!(rt; "currency 756: {}", fault.number())?;
    }
    if let Err(fault) = Amount::decode(&[0; 9]) {
        println!(rt; "nine bytes: {}", fault.number())?;
    }
    if let Err(fault) = Reason::new(100) {
        println!(rt; "reason 100: {}", fault.number())?;
    }
    Ok(())
}

fn main(rt: HostRuntime) -> io::Result<()> {
    if let Ok(dollars) = Amount::new(Currency::Usd, 41_200)
        && let Ok(yen) = Amount::new(Currency::Jpy, -1)
    {
        let mut cells = [AmountCell::default(); 2];
        in_both(&rt, "amounts", [dollars, yen], &mut cells, &mut [255; 34])?;
        let mut bytes = [255; 18];
        store_in_bytes(&mut bytes, dollars);
        show(&rt, &bytes)?;
        let mut cells = [AmountCell::default(); 2];
        store_in_cells(&mut cells, yen);
        println!(rt; "cells: {cells:?}")?;
    }
    if let Ok(reason) = Reason::new(99) {
        let pair = [Standing::Stopped(reason), Standing::Lodged(Day::new(9_000))];
        let mut cells = [StandingCell::default(); 2];
        in_both(&rt, "standings", pair, &mut cells, &mut [255; 22])?;
    }
    refusals(&rt)
}
