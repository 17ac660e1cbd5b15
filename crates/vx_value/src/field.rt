ghost use Rattle.std.specs.Prelude.{◌≡◌, IfOk};
ghost use Rattle.std.specs.Ordering.{ordering_then};

use crate::text::Text;
use crate::value::Value;
use crate::want_of_memory::WantOfMemory;
use std::alloc::Global;
use std::cmp::Ordering;

/// A name and its value.
#[cycle(value)]
#[derive(Drop)]
pub struct Field {
    pub name: Text,
    pub value: Value,
}

impl Field {
    ghost use Rattle.vx_value.specs.Orders.{text_cmp, datum_cmp};
    ghost use Rattle.vx_value.specs.Values.{datum_of};

    /// Which of two fields comes first: the order goes by their names, as texts, and then by their values.
    #[cycle(compare)]
    pub fn compare(&self, other: &Field) -> Ordering
        ensures { result ≡ ordering_then (text_cmp self.now.name other.now.name)
            (datum_cmp (datum_of self.now.value) (datum_of other.now.value)) }
    {
        match self.name.as_str().cmp(other.name.as_str()) {
            Ordering::Equal => self.value.compare(&other.value),
            unequal => unequal,
        }
    }

    /// The same field once more.
    #[cycle(copy)]
    pub fn copy(&self, alloc: Global) -> Result<Self, WantOfMemory>
        ensures { IfOk result (λ copy. copy ≡ self.now) }
    {
        let name = self.name.copy(alloc)?;
        let value = self.value.copy(alloc)?;
        Ok(Field { name, value })
    }
}
