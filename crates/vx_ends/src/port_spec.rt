ghost use Rattle.std.specs.Prelude.{◌≡◌, IfOk};

use std::alloc::Global;
use vx_value::{Text, WantOfMemory};

/// What a port has to be.
#[derive(Drop)]
pub enum Form {
    /// Standard input.
    Stdin,
    /// Standard output, or standard error where `err` is set.
    Console {
        err: bool,
    },
    /// A file that is read as it grows, from the place on that its checkpoint names; where `once` is set, to its end alone.
    FileIn {
        path: Text,
        once: bool,
        /// Where its checkpoint stands.
        checkpoint: Text,
    },
    /// A file that is appended to.
    FileOut {
        path: Text,
    },
}

impl Form {
    /// The same form once more.
    pub fn copy(&self, alloc: Global) -> Result<Self, WantOfMemory>
        ensures { IfOk result (λ copy. copy ≡ self.now) }
    {
        match self {
            Form::Stdin => Ok(Form::Stdin),
            Form::Console { err } => Ok(Form::Console { err: *err }),
            Form::FileIn {
                path,
                once,
                checkpoint,
            } => Ok(Form::FileIn {
                path: path.copy(alloc)?,
                once: *once,
                checkpoint: checkpoint.copy(alloc)?,
            }),
            Form::FileOut { path } => Ok(Form::FileOut {
                path: path.copy(alloc)?,
            }),
        }
    }
}

/// The name of a component with a device, and the form of its port.
#[derive(Drop)]
pub struct PortSpec {
    pub name: Text,
    pub form: Form,
}

impl PortSpec {
    /// The same once more.
    pub fn copy(&self, alloc: Global) -> Result<Self, WantOfMemory>
        ensures { IfOk result (λ copy. copy ≡ self.now) }
    {
        Ok(PortSpec {
            name: self.name.copy(alloc)?,
            form: self.form.copy(alloc)?,
        })
    }
}
