ghost use Rattle.std.specs.Prelude.{◌≡◌, length, IfOk};
ghost use Rattle.std.specs.Option.{option_copied};
ghost use Rattle.vx_plan.specs.Components.{component_named};
ghost use Rattle.vx_plan.specs.Numbers.{reader_numbers};
ghost use Rattle.vx_plan.specs.Ports.{port_spec};
ghost use Rattle.vx_plan.specs.Targets.{targets, acknowledged, leads as walks_lead};

use crate::component::{Component, ComponentList};
use crate::global::Global;
use crate::names::{named, place_named};
use crate::targets::{TargetLists, all_readers, numbers_of_names};
use crate::walk::leads;
use std::alloc::Global as Allocator;
use std::marker::Model;
use vx_ends::PortSpec;
use vx_value::{NumberList, TextList, WantOfMemory};

/// A configuration that was accepted. Contracts see its options and its components.
///
/// It keeps the names of each port's readers, so that to look at them takes no memory.
#[derive(Drop)]
pub struct Plan {
    pub global: Global,
    pub components: ComponentList,
    targets: TargetLists,
    /// The targets of a port that isn't there.
    nobody: TextList,
}

impl Model for Plan {
    ghost use Rattle.std.specs.Prelude.{◌≡◌, []};
    ghost use Rattle.vx_plan.specs.Planned.{Planned};

    ghost Value = { Planned };

    ghost use Rattle.vx_plan.specs.Kept.{all_readers};

    ghost view = { λ p. record { global = p.global; components = p.components } };

    ghost invariant = { λ p. (p.targets ≡ all_readers p.components) × (p.nobody ≡ []) };
}

impl Plan {
    /// The plan of a configuration's global options and of its components.
    pub fn new(
        alloc: Allocator,
        global: Global,
        components: ComponentList,
    ) -> Result<Self, WantOfMemory>
        ensures { IfOk result (λ plan. plan ≡ record { global = global; components = components }) }
    {
        let targets = all_readers(alloc, components.as_slice())?;
        Ok(Plan {
            global,
            components,
            targets,
            nobody: TextList::new(alloc),
        })
    }

    /// The same plan once more.
    pub fn copy(&self, alloc: Allocator) -> Result<Self, WantOfMemory>
        ensures { IfOk result (λ copy. copy ≡ self.now) }
    {
        let global = self.global.copy(alloc)?;
        let components = copy_components(alloc, &self.components)?;
        Plan::new(alloc, global, components)
    }

    /// The component of a name; of several the first. `None` exactly where there is none.
    pub fn component(&self, name: &str) -> Option<&Component>
        ensures { option_copied result ≡ component_named self.now name.now }
    {
        named(self.components.as_slice(), name)
    }

    /// The names of the components that read a port of a component, in byte order.
    ///
    /// The list is empty where the component isn't in the plan, or doesn't have that port. It takes no memory.
    pub fn targets(&self, name: &str, port: u32) -> &TextList
        ensures { result.now ≡ targets self.now name.now port }
    {
        let place = place_named(self.components.as_slice(), name);
        let Some(lists) = self.targets.get(place) else {
            return &self.nobody;
        };
        match lists.get(port as usize) {
            Some(names) => names,
            None => &self.nobody,
        }
    }

    /// The numbers of the components that read a port of a component, in byte order of their names.
    ///
    /// A component's number is its place among the plan's components, from 0 on.
    pub fn readers(
        &self,
        alloc: Allocator,
        name: &str,
        port: u32,
    ) -> Result<NumberList, WantOfMemory>
        ensures { IfOk result (λ numbers. numbers ≡ reader_numbers self.now name.now port) }
    {
        let names = self.targets(name, port);
        numbers_of_names(alloc, self.components.as_slice(), names.as_slice())
    }

    /// Whether the batches of a source wait: whether a walk along targets leads from it to a sink that acknowledges.
    pub fn acknowledged(&self, source: &str) -> bool
        ensures way { result ≡ acknowledged self.now source.now }
        ensures walk { result ≡ walks_lead (length self.now.components) self.now source.now }
    {
        leads(self, source)
    }

    /// The port that a component needs; `None` exactly where it has no device, or isn't in the plan.
    ///
    /// `once` says whether the run ends with the files that are there.
    pub fn port_spec(
        &self,
        alloc: Allocator,
        name: &str,
        once: bool,
    ) -> Result<Option<PortSpec>, WantOfMemory>
        ensures { IfOk result (λ spec. spec ≡ port_spec self.now name.now once) }
    {
        match self.component(name) {
            Some(component) => component.port(alloc, once, self.global.data_dir.as_str()),
            None => Ok(None),
        }
    }
}

/// The same components once more.
fn copy_components(
    alloc: Allocator,
    components: &ComponentList,
) -> Result<ComponentList, WantOfMemory>
    ensures { IfOk result (λ copies. copies ≡ components.now) }
{
    let mut copies = ComponentList::new(alloc);
    for component in components.as_slice() {
        copies
            .push(component.copy(alloc)?)
            .map_err(|_| WantOfMemory)?;
    }
    Ok(copies)
}
