ghost use Rattle.std.specs.Prelude.{◌≡◌, IfOk};
ghost use Rattle.toml.specs.View.{view, table_view};
ghost use Rattle.vx_reading.specs.Judging.{pairs_of, pairs_in};
ghost use Rattle.vx_reading.specs.Names.{AreApart, pair_names};
ghost use Rattle.vx_reading.specs.Views.{pairs_view};

use std::alloc::Global;
use toml::{Table, Value};
use vx_value::WantOfMemory;

/// A name and the value under it, in a table of the document.
#[derive(Clone, Copy)]
pub(crate) struct Pair<'a> {
    pub name: &'a str,
    pub value: &'a Value,
}

/// The members of a table, by the bytes of their names.
fn pairs_of<'a>(alloc: Global, table: &'a Table) -> Result<Vec<Pair<'a>>, WantOfMemory>
    ensures all { IfOk result (λ pairs. pairs_view pairs.items ≡ pairs_of (table_view table.now)) }
    ensures apart { IfOk result (λ pairs. AreApart (pair_names (pairs_of (table_view table.now)))) }
{
    let mut pairs = Vec::new(alloc);
    'members: for (name, value) in table.iter() {
        pairs.push(Pair {
            name: name.as_str(),
            value,
        })?;
    }
    Ok(pairs)
}

/// What a value has in it, where it is a table.
pub(crate) fn pairs_in<'a>(alloc: Global, value: &'a Value) -> Result<Vec<Pair<'a>>, WantOfMemory>
    ensures all { IfOk result (λ pairs. pairs_view pairs.items ≡ pairs_in (view value.now)) }
    ensures apart { IfOk result (λ pairs. AreApart (pair_names (pairs_in (view value.now)))) }
{
    match value.as_table() {
        Some(table) => pairs_of(alloc, table),
        None => Ok(Vec::new(alloc)),
    }
}
