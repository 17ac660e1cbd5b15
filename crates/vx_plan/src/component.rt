ghost use Rattle.std.specs.Prelude.{◌≡◌, ◌<◌, [], length, slice_index_or, IfOk};
ghost use Rattle.vx_plan.specs.Components.{port_names};
ghost use Rattle.vx_plan.specs.Options.{transform_ports};
ghost use Rattle.vx_plan.specs.Ports.{port_of};

use crate::class::Class;
use crate::settings::Settings;
use std::alloc::Global;
use vx_ends::PortSpec;
use vx_value::{ItemList, Text, TextList, WantOfMemory};

/// A named source, transform or sink.
#[derive(Drop)]
pub struct Component {
    pub name: Text,
    pub class: Class,
    /// The names of the outputs that it reads, in which each `*` stands for any text.
    pub inputs: TextList,
    pub settings: Settings,
}

/// Components: sources, transforms, sinks, each by bytes of the name.
pub type ComponentList = ItemList<Component>;

impl Component {
    /// The same component once more.
    pub fn copy(&self, alloc: Global) -> Result<Self, WantOfMemory>
        ensures { IfOk result (λ copy. copy ≡ self.now) }
    {
        Ok(Component {
            name: self.name.copy(alloc)?,
            class: self.class,
            inputs: self.inputs.copy(alloc)?,
            settings: self.settings.copy(alloc)?,
        })
    }

    /// The port that the component needs; `None` exactly where it has no device.
    ///
    /// `once` says whether the run ends with the files that are there. Checkpoints stand in `folder`.
    pub fn port(
        &self,
        alloc: Global,
        once: bool,
        folder: &str,
    ) -> Result<Option<PortSpec>, WantOfMemory>
        ensures { IfOk result (λ port. port ≡ port_of once folder.now self.now) }
    {
        match self.settings.form(alloc, once, folder, self.name.as_str())? {
            None => Ok(None),
            Some(form) => Ok(Some(PortSpec {
                name: self.name.copy(alloc)?,
                form,
            })),
        }
    }

    /// How many ports the component has.
    pub fn ports(&self) -> usize
        ensures { result ≡ length (port_names self.now) }
    {
        match self.class {
            Class::Source => 1,
            Class::Transform => self.settings.ports(),
            Class::Sink => 0,
        }
    }

    /// The name of one of its ports, which is empty where the component has no other.
    pub fn port_name(&self, port: usize) -> &str
        requires { port < length (port_names self.now) }
        ensures { result.now ≡ slice_index_or (port_names self.now) port [] }
    {
        match self.class {
            Class::Transform => self.settings.port_name(port),
            _ => "",
        }
    }
}
