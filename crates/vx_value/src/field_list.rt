ghost use Rattle.std.specs.Prelude.{◌≡◌, ◌≤◌, ◌<◌, ◌↔◌, [], ◌∷◌, ◌++◌, length, map, slice_get, option_map, IsTrue, IsNone, IfSome, IfNone, IfOk, IfErr, OnOk, OnErr};
ghost use Rattle.std.specs.Option.{option_copied};

use crate::field::Field;
use crate::text::Text;
use crate::value::Value;
use crate::want_of_memory::WantOfMemory;
use std::alloc::Global;
use std::cmp::Ordering;
use std::marker::Model;

/// Fields, their names strictly rising by bytes. Contracts see the list of what they stand for.
#[cycle(value)]
#[derive(Drop)]
pub struct FieldList {
    fields: Vec<Field>,
}

impl Model for FieldList {
    ghost use Rattle.std.specs.Prelude.{List, map, ◌+◌, IsTrue};
    ghost use Rattle.std.specs.Coded.{coded_list};
    ghost use Rattle.vx_value.specs.Datum.{NamedDatum};
    ghost use Rattle.vx_value.specs.DatumCode.{coded_named};

    ghost Value = { List NamedDatum };

    ghost coded = { coded_list coded_named };

    ghost use Rattle.vx_value.specs.Datum.{named_of, named_depth};
    ghost use Rattle.vx_value.specs.Values.{named_datum};
    ghost use Rattle.vx_value.specs.Events.{names_rise};

    ghost view = { λ l. map named_datum l.fields.items };

    ghost invariant = { λ l. IsTrue (names_rise (map named_datum l.fields.items)) };

    ghost size = { λ fs. 1 + named_depth (named_of fs) };

    ghost use Rattle.std.proofs.Common.{arith};
    ghost use Rattle.vx_value.specs.Falls.{most-named};

    ghost size_decreases = { λ l h. Prim.omega (arith, most-named l.fields.items) };
}

impl FieldList {
    ghost use Rattle.vx_value.specs.Values.{datum_of, named_datum};
    ghost use Rattle.vx_value.specs.Datum.{Fields, depth, named_of, named_depth};
    ghost use Rattle.vx_value.specs.Events.{names_rise, last_below, value_under, value_at, with_field, put_at, blocked_names, others_depth, fields_depth, fields_in, put_in};
    ghost use Rattle.vx_value.specs.Orders.{named_cmp};
    ghost use Rattle.vx_value.specs.Places.{IsPlace, IsGap};

    /// No fields. It takes no memory.
    pub fn new(alloc: Global) -> Self
        ensures { result ≡ [] }
    {
        FieldList {
            fields: Vec::new(alloc),
        }
    }

    /// No fields, with room for so many and no more.
    pub fn with_room(alloc: Global, room: usize) -> Result<Self, WantOfMemory>
        ensures { IfOk result (λ fields. fields ≡ []) }
    {
        let fields = Vec::with_capacity(alloc, room)?;
        Ok(FieldList { fields })
    }

    /// How many fields there are.
    pub fn len(&self) -> usize
        ensures len { result ≡ length self.now }
        ensures rising { IsTrue (names_rise self.now) }
    {
        self.fields.len()
    }

    /// Whether there is no field.
    pub fn is_empty(&self) -> bool
        ensures { IsTrue result ↔ (self.now ≡ []) }
    {
        self.fields.is_empty()
    }

    /// The fields, in order.
    pub fn as_slice(&self) -> &[Field]
        ensures fields { map named_datum result.now ≡ self.now }
        ensures rising { IsTrue (names_rise self.now) }
    {
        self.fields.as_slice()
    }

    /// The field at an index, counted from 0. `None` exactly where the index isn't below the length.
    pub fn get(&self, i: usize) -> Option<&Field>
        ensures field { option_map named_datum (option_copied result) ≡ slice_get self.now i }
        ensures rising { IsTrue (names_rise self.now) }
    {
        self.fields.get(i)
    }

    /// The value under a name. `None` exactly where no field has the name.
    pub fn find(&self, name: &str) -> Option<&Value>
        ensures { option_map datum_of (option_copied result) ≡ value_under self.now name.now }
    {
        match self.place(name) {
            Ok(i) => Some(&self.fields[i].value),
            Err(_) => None,
        }
    }

    // Where a name stands, or would stand.
    fn place(&self, name: &str) -> Result<usize, usize>
        ensures ok { IfOk result (IsPlace self.now name.now) }
        ensures err { IfErr result (IsGap self.now name.now) }
    {
        for (i, field) in self.fields.as_slice().iter().enumerate() {
            match field.name.as_str().cmp(name) {
                Ordering::Less => {}
                Ordering::Equal => return Ok(i),
                Ordering::Greater => return Err(i),
            }
        }
        Err(self.fields.len())
    }

    /// Adds a field whose name comes after the last one by its bytes.
    /// For want of memory the field comes back, and the fields are as before.
    pub fn push(&mut self, field: Field) -> Result<(), Field>
        requires { IsTrue (last_below self.old field.name) }
        ensures ok { OnOk result (self.new ≡ self.old ++ named_datum field ∷ []) }
        ensures err { OnErr result (self.new ≡ self.old) }
        ensures back { IfErr result (λ x. x ≡ field) }
    {
        match self.fields.push(field) {
            Ok(()) => Ok(()),
            Err(full) => Err(full.value),
        }
    }

    /// Takes the last field. `None` exactly where there is none.
    pub fn pop(&mut self) -> Option<Field>
        ensures some { IfSome result (λ x. self.old ≡ self.new ++ named_datum x ∷ []) }
        ensures none { IsNone result ↔ (self.old ≡ []) }
        ensures empty { IfNone result (self.new ≡ []) }
    {
        self.fields.pop()
    }

    // Whether each value is at most that deep.
    #[cycle(fits)]
    pub(crate) fn fits(&self, levels: u32) -> bool
        ensures { IsTrue result ↔ (named_depth (named_of self.now) ≤ levels) }
    {
        for field in self.fields.as_slice() {
            if !field.value.fits(levels) {
                return false;
            }
        }
        true
    }

    // Whether each value under another name is at most that deep.
    fn others_fit(&self, name: &str, levels: u32) -> bool
        ensures { IsTrue result ↔ (others_depth self.now name.now ≤ levels) }
    {
        for field in self.fields.as_slice() {
            if field.name.as_str() != name && !field.value.fits(levels) {
                return false;
            }
        }
        true
    }

    // The fields of the value under a name, where it is of kind Fields.
    fn fields_under(&self, name: &str) -> Option<&FieldList>
        ensures some { IfSome result
            (λ inner. value_under self.now name.now ≡ Some (Fields (named_of inner.now))) }
        ensures none { IfNone result (fields_in (value_under self.now name.now) ≡ []) }
    {
        match self.find(name) {
            Some(value) => value.as_fields(),
            None => None,
        }
    }

    // The value at a path of names.
    pub(crate) fn at(&self, names: &[Text]) -> Option<&Value>
        ensures { option_map datum_of (option_copied result) ≡ value_at self.now names.now }
    {
        let [name, rest @ ..] = names else {
            return None;
        };
        if rest.is_empty() {
            return self.find(name.as_str());
        }
        match self.fields_under(name.as_str()) {
            Some(inner) => inner.at(rest),
            None => None,
        }
    }

    // How many names lead to a value of another kind than Fields before the last name, or 0.
    pub(crate) fn blocked(&self, names: &[Text]) -> usize
        ensures names { result ≡ blocked_names self.now names.now }
        ensures within { result ≤ length names.now }
    {
        let [name, rest @ ..] = names else {
            return 0;
        };
        if rest.is_empty() {
            return 0;
        }
        let Some(value) = self.find(name.as_str()) else {
            return 0;
        };
        let Some(inner) = value.as_fields() else {
            return 1;
        };
        let further = inner.blocked(rest);
        if further == 0 { 0 } else { further + 1 }
    }

    // Whether the fields are at most that deep once a value is put at a path.
    #[cycle(fits_with)]
    pub(crate) fn fits_with(&self, names: &[Text], value: &Value, levels: u32) -> bool
        requires { 0 < length names.now }
        ensures { IsTrue result
            ↔ (fields_depth (put_at self.now names.now (datum_of value.now)) ≤ levels) }
    {
        let _ = &self.fields;
        let [name, rest @ ..] = names else {
            return false;
        };
        if levels == 0 {
            return false;
        }
        if !self.others_fit(name.as_str(), levels - 1) {
            return false;
        }
        self.under_fits(name.as_str(), rest, value, levels - 1)
    }

    // Whether the value under a name is at most that deep once a value is put at the rest of a path.
    #[cycle(fits_with)]
    fn under_fits(&self, name: &str, rest: &[Text], value: &Value, levels: u32) -> bool
        ensures { IsTrue result
            ↔ (depth (put_in (value_under self.now name.now) rest.now (datum_of value.now))
            ≤ levels) }
    {
        if rest.is_empty() {
            return value.fits(levels);
        }
        match self.fields_under(name) {
            Some(inner) => inner.fits_with(rest, value, levels),
            None => FieldList::new(*self.fields.allocator()).fits_with(rest, value, levels),
        }
    }

    // Adds a field at the place where its name would stand.
    // For want of memory the field comes back, and the fields are as before.
    fn insert(&mut self, i: usize, field: Field) -> Result<(), Field>
        requires { IsGap self.old field.name i }
        ensures ok { OnOk result
            (self.new ≡ with_field self.old field.name (datum_of field.value)) }
        ensures err { OnErr result (self.new ≡ self.old) }
    {
        match self.fields.insert(i, field) {
            Ok(()) => Ok(()),
            Err(full) => Err(full.value),
        }
    }

    /// Puts a value under a name, in place of one that stands there. For want of memory the fields are as before.
    pub fn put_under(&mut self, name: Text, value: Value) -> Result<(), WantOfMemory>
        ensures ok { OnOk result (self.new ≡ with_field self.old name (datum_of value)) }
        ensures err { OnErr result (self.new ≡ self.old) }
    {
        let gap = match self.place(name.as_str()) {
            Ok(i) => {
                self.fields[i].value = value;
                return Ok(());
            }
            Err(i) => i,
        };
        match self.insert(gap, Field { name, value }) {
            Ok(()) => Ok(()),
            Err(_) => Err(WantOfMemory),
        }
    }

    // Puts a value under a copy of a name. For want of memory the fields are as before.
    fn set(&mut self, name: &Text, value: Value) -> Result<(), WantOfMemory>
        ensures ok { OnOk result (self.new ≡ with_field self.old name.now (datum_of value)) }
        ensures err { OnErr result (self.new ≡ self.old) }
    {
        let name = name.copy(*self.fields.allocator())?;
        self.put_under(name, value)
    }

    // Puts a value at a path, and makes the fields that are missing on the way.
    // For want of memory the fields are as before.
    pub(crate) fn put(&mut self, names: &[Text], value: Value) -> Result<(), WantOfMemory>
        requires some { 0 < length names.now }
        requires open { blocked_names self.old names.now ≡ 0 }
        ensures ok { OnOk result (self.new ≡ put_at self.old names.now (datum_of value)) }
        ensures err { OnErr result (self.new ≡ self.old) }
    {
        let [name, rest @ ..] = names else {
            unreachable!();
        };
        if rest.is_empty() {
            return self.set(name, value);
        }
        match self.place(name.as_str()) {
            Ok(i) => match &mut self.fields[i].value {
                Value::Fields(inner) => inner.put(rest, value),
                _ => unreachable!(),
            },
            Err(_) => {
                let mut inner = FieldList::new(*self.fields.allocator());
                inner.put(rest, value)?;
                self.set(name, Value::Fields(inner))
            }
        }
    }

    /// Which of two lists of fields comes first: the first place at which they differ decides, there the name before
    /// the value, and a list comes before one that goes on.
    #[cycle(compare)]
    pub fn compare(&self, other: &FieldList) -> Ordering
        ensures { result ≡ named_cmp (named_of self.now) (named_of other.now) }
    {
        let mut i: usize = 0;
        for field in self.fields.as_slice() {
            let Some(that) = other.fields.get(i) else {
                return Ordering::Greater;
            };
            match field.compare(that) {
                Ordering::Equal => i += 1,
                unequal => return unequal,
            }
        }
        if i < other.fields.len() {
            Ordering::Less
        } else {
            Ordering::Equal
        }
    }

    /// The same fields once more.
    #[cycle(copy)]
    pub fn copy(&self, alloc: Global) -> Result<Self, WantOfMemory>
        ensures { IfOk result (λ copy. copy ≡ self.now) }
    {
        let mut fields = Vec::with_capacity(alloc, self.fields.len())?;
        for field in self.fields.as_slice() {
            match fields.push(field.copy(alloc)?) {
                Ok(()) => {}
                Err(_) => return Err(WantOfMemory),
            }
        }
        Ok(FieldList { fields })
    }
}
