//! Converters by name and types, and what they make of values.

use migrate_fns::Migrations;
use per_base::Name;
use std::alloc::{AllocError, Global};
use test_rows::RowError;
use typed_value::{Value, ValueType, parse_type, parse_value, print_value};

/// An element, a value and the type that is wanted of it.
#[derive(Drop)]
struct Wish {
    element: Name,
    value: Value,
    to: ValueType,
}

/// What the first converter makes of the value.
pub(crate) fn find(alloc: Global, migrations: &Migrations, row: &str) -> Result<String, RowError> {
    let wish = wish_of(alloc, row)?;
    found(alloc, migrations, &wish)
}

fn found(alloc: Global, migrations: &Migrations, wish: &Wish) -> Result<String, RowError> {
    let from = wish.value.value_type(alloc)?;
    match migrations.find(&wish.element, &from, &wish.to) {
        None => Ok(String::from_str(alloc, "no converter")?),
        Some(migration) => converted_text(alloc, migration.convert(&wish.value)),
    }
}

/// The places of the chain, and what it makes of the value.
pub(crate) fn chain(alloc: Global, migrations: &Migrations, row: &str) -> Result<String, RowError> {
    let wish = wish_of(alloc, row)?;
    chained(alloc, migrations, &wish)
}

fn chained(alloc: Global, migrations: &Migrations, wish: &Wish) -> Result<String, RowError> {
    let from = wish.value.value_type(alloc)?;
    match migrations.find_chain(alloc, &wish.element, &from, &wish.to)? {
        None => Ok(String::from_str(alloc, "no chain")?),
        Some(chain) => {
            let value = converted_text(alloc, chain.convert(&wish.value))?;
            Ok(format!(in alloc; "{:?} {value}", chain.places())?)
        }
    }
}

/// The text of a converted value.
fn converted_text(alloc: Global, converted: Result<Value, AllocError>) -> Result<String, RowError> {
    match converted {
        Ok(value) => Ok(print_value(alloc, &value)?),
        Err(_) => Err(RowError::OutOfMemory),
    }
}

fn wish_of(alloc: Global, row: &str) -> Result<Wish, RowError> {
    let (element, rest) = row.split_once('|').ok_or(RowError::NotARow)?;
    let (value, to) = rest.split_once('|').ok_or(RowError::NotARow)?;
    let element = Name::new(alloc, element).map_err(|_| RowError::NotARow)?;
    let to = parse_type(alloc, to.as_bytes()).map_err(|_| RowError::NotARow)?;
    let value = parse_value(alloc, value.as_bytes()).map_err(|_| RowError::NotARow)?;
    Ok(Wish { element, value, to })
}
