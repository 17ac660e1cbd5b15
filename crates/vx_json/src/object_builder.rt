ghost use Rattle.std.specs.Prelude.{◌≡◌, [], ◌++◌, OnOk, IfOk};
ghost use Rattle.vx_value.specs.Events.{with_field};
ghost use Rattle.vx_value.specs.Values.{datum_of};
ghost use Rattle.vx_json.specs.ObjectBuilders.{tree_fields};

use crate::name::Name;
use crate::put_field::{last_order, put_field};
use std::alloc::Global;
use std::collections::BTreeMap;
use std::marker::Model;
use vx_value::{Field, FieldList, Text, Value, WantOfMemory};

/// So many fields are kept in a list, in which a name is put by moving those behind it.
const FEW: usize = 64;

/// How the fields of an object are kept while it is read.
#[derive(Drop)]
enum Kept {
    /// Few fields, or more whose names came in rising order.
    List(FieldList),
    /// More fields, by their names.
    Tree(BTreeMap<Name, Value, Global>),
}

/// The fields of an object so far. However their names come, all of them take time in n log n of their number.
#[derive(Drop)]
pub struct ObjectBuilder {
    kept: Kept,
}

impl Model for ObjectBuilder {
    ghost use Rattle.std.specs.Prelude.{List};
    ghost use Rattle.vx_value.specs.Datum.{NamedDatum};
    ghost use Rattle.vx_json.specs.ObjectBuilders.{kept_fields};
    ghost use Rattle.std.specs.Coded.{coded_list};
    ghost use Rattle.vx_value.specs.DatumCode.{coded_named};

    ghost Value = { List NamedDatum };

    ghost coded = { coded_list coded_named };

    ghost view = { λ d. kept_fields d.kept };
}

impl ObjectBuilder {
    /// No fields. It takes no memory.
    pub fn new(alloc: Global) -> Self
        ensures { result ≡ [] }
    {
        ObjectBuilder {
            kept: Kept::List(FieldList::new(alloc)),
        }
    }

    /// Puts a value under a name, in place of one that stands there. For want of memory nothing is known of the fields.
    pub fn put(&mut self, alloc: Global, name: Text, value: Value) -> Result<(), WantOfMemory>
        ensures { OnOk result (self.new ≡ with_field self.old name (datum_of value)) }
    {
        if let Kept::List(fields) = &mut self.kept {
            if stays_list(fields, name.as_str()) {
                return put_field(fields, name, value);
            }
        }
        self.put_in_tree(alloc, name, value)
    }

    // The same, where the fields then stand in a tree.
    #[inline(never)]
    fn put_in_tree(&mut self, alloc: Global, name: Text, value: Value) -> Result<(), WantOfMemory>
        ensures { OnOk result (self.new ≡ with_field self.old name (datum_of value)) }
    {
        match &mut self.kept {
            Kept::List(fields) => {
                let mut tree = plant(alloc, fields)?;
                insert(&mut tree, name, value)?;
                self.kept = Kept::Tree(tree);
                Ok(())
            }
            Kept::Tree(tree) => insert(tree, name, value),
        }
    }

    /// The fields.
    pub fn finish(self, alloc: Global) -> Result<FieldList, WantOfMemory>
        ensures { IfOk result (λ fields. fields ≡ self) }
    {
        match self.kept {
            Kept::List(fields) => Ok(fields),
            Kept::Tree(tree) => harvest(alloc, tree),
        }
    }
}

/// Whether a name is put in the list where it costs little: among few, or behind all.
#[inline(always)]
fn stays_list(fields: &FieldList, name: &str) -> bool {
    fields.len() < FEW || last_order(fields, name).is_lt()
}

/// Puts a value under a name, in place of one that stands there.
fn insert(
    tree: &mut BTreeMap<Name, Value, Global>,
    name: Text,
    value: Value,
) -> Result<(), WantOfMemory>
    ensures { OnOk result
        (tree_fields tree.new.entries
        ≡ with_field (tree_fields tree.old.entries) name (datum_of value)) }
{
    match tree.insert(Name { text: name }, value) {
        Ok(_before) => Ok(()),
        Err(_) => Err(WantOfMemory),
    }
}

/// The fields of a list by their names.
fn plant(
    alloc: Global,
    fields: &mut FieldList,
) -> Result<BTreeMap<Name, Value, Global>, WantOfMemory>
    ensures { IfOk result (λ tree. tree_fields tree.entries ≡ fields.old) }
{
    let _ = fields.len();
    let mut tree = BTreeMap::new(alloc);
    while let Some(field) = fields.pop() {
        insert(&mut tree, field.name, field.value)?;
    }
    Ok(tree)
}

/// The fields in order of their names.
fn harvest(alloc: Global, tree: BTreeMap<Name, Value, Global>) -> Result<FieldList, WantOfMemory>
    ensures { IfOk result (λ fields. fields ≡ tree_fields tree.entries) }
{
    let _ = tree.len();
    let mut tree = tree;
    let mut fields = FieldList::new(alloc);
    while let Some((name, value)) = tree.pop_first() {
        match fields.push(Field {
            name: name.text,
            value,
        }) {
            Ok(()) => {}
            Err(_) => return Err(WantOfMemory),
        }
    }
    Ok(fields)
}
