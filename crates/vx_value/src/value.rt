ghost use Rattle.std.specs.Prelude.{◌≡◌, ◌≤◌, ◌↔◌, [], IfOk, IfSome, IfNone, IsTrue};
ghost use Rattle.std.specs.Cmp.{IsTotalOrder};
ghost use Rattle.std.specs.FinSet.{IsAntisymmetric};
ghost use Rattle.std.specs.Ordering.{nat_cmp};

use crate::field_list::FieldList;
use crate::text::Text;
use crate::value_list::ValueList;
use crate::want_of_memory::WantOfMemory;
use std::alloc::Global;
use std::cmp::Ordering;

/// A value. Contracts see the values inside it, and one that stands under a name, as a `Datum`.
#[cycle(value)]
#[derive(Drop)]
pub enum Value {
    /// Nothing.
    Null,
    /// A truth value.
    Truth(bool),
    /// A whole number of 64 bits.
    Whole(i64),
    /// A number by its spelling in JSON, which isn't the spelling of a whole number of 64 bits.
    Spelled(Text),
    /// A text.
    Words(Text),
    /// Values in order.
    Items(ValueList),
    /// Values under names.
    Fields(FieldList),
}

impl Value {
    ghost use Rattle.vx_value.specs.Datum.{depth};
    ghost use Rattle.vx_value.specs.Events.{fields_in, is_other};
    ghost use Rattle.vx_value.specs.Orders.{kind_of, datum_cmp};
    ghost use Rattle.vx_value.specs.Values.{datum_of};

    /// Whether the value is at most that deep.
    #[cycle(fits)]
    pub fn fits(&self, levels: u32) -> bool
        ensures { IsTrue result ↔ (depth (datum_of self.now) ≤ levels) }
    {
        match self {
            Value::Items(items) => levels > 0 && items.fits(levels - 1),
            Value::Fields(fields) => levels > 0 && fields.fits(levels - 1),
            _ => true,
        }
    }

    /// The fields of a value of kind Fields. `None` exactly where the value is of another kind.
    pub fn as_fields(&self) -> Option<&FieldList>
        ensures fields { IfSome result (λ fields. self.now ≡ Value.Fields fields.now) }
        ensures other { IfNone result (IsTrue (is_other (Some (datum_of self.now)))) }
        ensures bare { IfNone result (fields_in (Some (datum_of self.now)) ≡ []) }
    {
        match self {
            Value::Fields(fields) => Some(fields),
            _ => None,
        }
    }

    // Which variant the value is, counted from 0.
    fn kind(&self) -> u8
        ensures { result ≡ kind_of (datum_of self.now) }
    {
        match self {
            Value::Null => 0,
            Value::Truth(_) => 1,
            Value::Whole(_) => 2,
            Value::Spelled(_) => 3,
            Value::Words(_) => 4,
            Value::Items(_) => 5,
            Value::Fields(_) => 6,
        }
    }

    // Which of two kinds comes first.
    fn compare_kinds(&self, other: &Value) -> Ordering
        ensures { result ≡ nat_cmp (kind_of (datum_of self.now)) (kind_of (datum_of other.now)) }
    {
        self.kind().cmp(&other.kind())
    }

    /// Which of two values comes first: the order goes by their kinds, as the variants stand, and then by what they
    /// hold. Texts are compared by their bytes, and lists and fields by the first place at which they differ.
    #[cycle(compare)]
    pub fn compare(&self, other: &Value) -> Ordering
        ensures { result ≡ datum_cmp (datum_of self.now) (datum_of other.now) }
    {
        match self {
            Value::Null => self.compare_kinds(other),
            Value::Truth(truth) => match other {
                Value::Truth(that) => truth.cmp(that),
                _ => self.compare_kinds(other),
            },
            Value::Whole(whole) => match other {
                Value::Whole(that) => whole.cmp(that),
                _ => self.compare_kinds(other),
            },
            Value::Spelled(spelling) => match other {
                Value::Spelled(that) => spelling.as_str().cmp(that.as_str()),
                _ => self.compare_kinds(other),
            },
            Value::Words(words) => match other {
                Value::Words(that) => words.as_str().cmp(that.as_str()),
                _ => self.compare_kinds(other),
            },
            Value::Items(items) => match other {
                Value::Items(that) => items.compare(that),
                _ => self.compare_kinds(other),
            },
            Value::Fields(fields) => match other {
                Value::Fields(that) => fields.compare(that),
                _ => self.compare_kinds(other),
            },
        }
    }

    /// Whether two values are the same, which is where neither comes first. The order is total.
    pub fn is_same(&self, other: &Value) -> bool
        ensures same { IsTrue result ↔ (self.now ≡ other.now) }
        ensures total { IsTotalOrder datum_cmp }
        ensures alone { IsAntisymmetric datum_cmp }
    {
        self.compare(other).is_eq()
    }

    /// The same value once more.
    #[cycle(copy)]
    pub fn copy(&self, alloc: Global) -> Result<Self, WantOfMemory>
        ensures { IfOk result (λ copy. copy ≡ self.now) }
    {
        match self {
            Value::Null => Ok(Value::Null),
            Value::Truth(truth) => Ok(Value::Truth(*truth)),
            Value::Whole(whole) => Ok(Value::Whole(*whole)),
            Value::Spelled(spelling) => Ok(Value::Spelled(spelling.copy(alloc)?)),
            Value::Words(words) => Ok(Value::Words(words.copy(alloc)?)),
            Value::Items(items) => Ok(Value::Items(items.copy(alloc)?)),
            Value::Fields(fields) => Ok(Value::Fields(fields.copy(alloc)?)),
        }
    }
}
