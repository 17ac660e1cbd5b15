use crate::item_list::ItemList;
use crate::text::Text;

/// A variable of the environment.
#[derive(Drop)]
pub struct Variable {
    pub name: Text,
    pub value: Text,
}

/// The variables of an environment, in order.
pub type VariableList = ItemList<Variable>;
