use crate::act::ActList;
use crate::step::StepList;
use vx_value::{ItemList, Text};

/// The script of one port of a world in memory: its steps and acts, under the name of its component.
#[derive(Drop)]
pub struct Scripted {
    pub name: Text,
    pub steps: StepList,
    pub acts: ActList,
}

/// The scripts of a world in memory. Those of one name are used in their order.
pub type ScriptedList = ItemList<Scripted>;
