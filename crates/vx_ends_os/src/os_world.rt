ghost use Rattle.std.specs.Prelude.{◌≡◌, ◌≢◌, ◌∷◌, [], IfOk, OnOk, Err, Some, None};
ghost use Rattle.vx_ends.specs.declared.call.Call.TheVariants as call;
ghost use Rattle.vx_ends.specs.Observation.{Grows, HasCause, IsFresh};
ghost use Rattle.vx_ends_os.specs.Devices.{IsDeviceOf, StandsOn};

use crate::device::Device;
use crate::file_in::FileIn;
use crate::file_out::FileOut;
use crate::os_output::OsOutput;
use crate::os_port::OsPort;
use std::fs;
use std::io::ErrorKind;
use vx_ends::{Call, Form, Port, PortSpec, Trouble, World};
use vx_history::History;
use vx_value::{Bytes, WantOfMemory};

/// The file system and the standard streams of this process. It tells its calls, in proofs alone, and nothing of what files hold.
#[derive(Drop)]
pub struct OsWorld {
    rt: HostRuntime,
    faults: u64,
    calls: History<Call>,
}

impl OsWorld {
    /// The world around this process.
    pub fn new(rt: HostRuntime) -> Self {
        OsWorld {
            rt,
            faults: 0,
            calls: History::new(),
        }
    }

    // What a port of that form stands on.
    fn device(&self, form: &Form) -> Result<Device, WantOfMemory>
        ensures { IfOk result (IsDeviceOf form.now) }
    {
        let (rt, alloc) = (self.rt, self.rt.alloc());
        match form {
            Form::Stdin => Ok(Device::Input(rt.stdin())),
            Form::Console { err } => Ok(Device::Output(OsOutput::new(rt, *err))),
            Form::FileIn {
                path,
                once,
                checkpoint,
            } => {
                let file = FileIn::new(rt, alloc, path.as_str(), *once, checkpoint.as_str())?;
                Ok(Device::FileIn(file))
            }
            Form::FileOut { path } => {
                let file = FileOut::new(rt, path.copy(alloc)?);
                Ok(Device::FileOut(file))
            }
        }
    }
}

impl World for OsWorld {
    ghost use Rattle.vx_ends_os.specs.Worlds.{faults_of, calls_of};

    type Port = OsPort;

    ghost texts = { λ _. None };

    ghost faults = { faults_of };

    ghost calls = { λ w. Some (calls_of w) };

    fn config(&mut self, path: &str) -> Result<Bytes, Trouble>
        // The count of faults stays where the text was read.
        ensures kept { OnOk result (faults_of self.new ≡ faults_of self.old) }

        ensures calls { Grows (Some (calls_of self.old)) (Some (calls_of self.new))
            (call.Config path.now ∷ []) }
        ensures cause { HasCause (faults_of self.old) (faults_of self.new) result }
        ensures unrefused { result ≢ Err Trouble.Refused }
    {
        self.calls.note(&path.as_bytes());
        match fs::read(&self.rt, path) {
            Ok(bytes) => Ok(Bytes::from_vec(bytes)),
            Err(error) if error.kind() == ErrorKind::OutOfMemory => Err(Trouble::WantOfMemory),
            Err(_) => {
                self.faults = self.faults.saturating_add(1);
                Err(Trouble::Failed)
            }
        }
    }

    fn port(&mut self, spec: &PortSpec) -> Result<OsPort, WantOfMemory>
        // The port stands on what its form names.
        ensures device { IfOk result (StandsOn spec.now.form) }

        ensures fresh { IfOk result (λ port. IsFresh spec.now (⟦<OsPort as Port>⟧.observed port)) }
        ensures calls { Grows (Some (calls_of self.old)) (Some (calls_of self.new))
            (call.Port spec.now ∷ []) }
        ensures faults { faults_of self.new ≡ faults_of self.old }
    {
        self.calls.note(&spec);
        Ok(OsPort::new(self.device(&spec.form)?))
    }
}
