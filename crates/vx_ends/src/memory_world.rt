ghost use Rattle.std.specs.Prelude.{◌≡◌, ◌≢◌, ◌<◌, ◌↔◌, ℕ, length, remove, slice_get, IfOk, IfSome, IfNone, OnOk, OnErr, IsErrOf, Some, None, [], ◌∷◌, reverse};
ghost use Rattle.std.specs.Option.{option_copied};
ghost use Rattle.vx_ends.specs.Acts.{is_failed, raised};
ghost use Rattle.vx_ends.specs.Playing.{closed_port, observe};
ghost use Rattle.vx_ends.specs.Scripts.{script_for, scripts_without, steps_of, acts_of};
ghost use Rattle.vx_ends.specs.Texts.{text_at, IsTextAt};
ghost use Rattle.vx_ends.specs.Observation.{Grows, HasCause, IsFresh};
ghost use Rattle.vx_ends.specs.declared.call.Call.TheVariants as call;

use crate::act::ActList;
use crate::call::Call;
use crate::memory_port::MemoryPort;
use crate::port_spec::PortSpec;
use crate::scripted::{Scripted, ScriptedList};
use crate::step::StepList;
use crate::trouble::Trouble;
use crate::world::{Config, ConfigList, World};
use std::alloc::Global;
use std::marker::Model;
use std::mem;
use vx_history::History;
use vx_value::{Bytes, WantOfMemory};

/// A world of texts in memory, and of ports that play scripts.
///
/// The scripts of a name are handed out in their order, one to a port. A port for which none is left plays an empty
/// script: it has nothing to take, and each of its calls passes.
#[derive(Drop)]
pub struct MemoryWorld {
    alloc: Global,
    configs: ConfigList,
    scripts: ScriptedList,
    faults: u64,
    calls: History<Call>,
}

impl Model for MemoryWorld {
    ghost use Rattle.vx_ends.specs.Scripts.{Staged};

    ghost Value = { Staged };

    ghost view = { λ w. record { configs = w.configs; scripts = w.scripts; faults = w.faults; calls = w.calls } };
}

// The bytes of the first text with a path.
fn find_text<'a>(configs: &'a [Config], path: &str) -> Option<&'a Bytes>
    ensures { option_copied result ≡ text_at configs.now path.now }
{
    for config in configs {
        if config.path.as_str() == path {
            return Some(&config.bytes);
        }
    }
    None
}

// The index of the next script of a name.
fn find_script(scripts: &[Scripted], name: &str) -> Option<usize>
    ensures within { IfSome result (λ i. i < length scripts.now) }
    ensures some { IfSome result (λ i. script_for scripts.now name.now ≡ slice_get scripts.now i) }
    ensures left { IfSome result
        (λ i. scripts_without scripts.now name.now ≡ remove scripts.now i) }
    ensures none { IfNone result (script_for scripts.now name.now ≡ None) }
    ensures all { IfNone result (scripts_without scripts.now name.now ≡ scripts.now) }
{
    for (i, script) in scripts.iter().enumerate() {
        if script.name.as_str() == name {
            return Some(i);
        }
    }
    None
}

// Takes the steps and acts of the next script of a name out of the list: none where there is no such script.
fn take_script(alloc: Global, scripts: &mut ScriptedList, name: &str) -> (StepList, ActList)
    ensures steps { result.0 ≡ steps_of (script_for scripts.old name.now) }
    ensures acts { result.1 ≡ acts_of (script_for scripts.old name.now) }
    ensures left { scripts.new ≡ scripts_without scripts.old name.now }
{
    match find_script(scripts.as_slice(), name) {
        Some(i) => {
            let mut all = mem::replace(scripts, ScriptedList::new(alloc)).into_vec();
            let script = all.remove(i);
            *scripts = ScriptedList::from_vec(all);
            (script.steps, script.acts)
        }
        None => (StepList::new(alloc), ActList::new(alloc)),
    }
}

impl MemoryWorld {
    /// A world with these texts and scripts.
    pub fn new(alloc: Global, configs: ConfigList, ports: ScriptedList) -> Self
        ensures { result ≡ record { configs = configs; scripts = ports; faults = 0; calls = [] } }
    {
        MemoryWorld {
            alloc,
            configs,
            scripts: ports,
            faults: 0,
            calls: History::new(),
        }
    }
}

impl World for MemoryWorld {
    type Port = MemoryPort;

    ghost texts = { λ w. Some w.configs };

    ghost faults = { λ w. w.faults };

    ghost calls = { λ w. Some (reverse w.calls) };

    fn config(&mut self, path: &str) -> Result<Bytes, Trouble>
        // It fails exactly where no text has the path.
        ensures missing { IsErrOf result Trouble.Failed
            ↔ (text_at self.old.configs path.now ≡ None) }
        ensures after { self.new
            ≡ record
            self.old {
              faults = raised self.old.faults (is_failed result);
              calls = call.Config path.now ∷ self.old.calls;
            } }

        ensures text { IfOk result (IsTextAt (Some self.old.configs) path.now) }
        ensures texts { Some self.new.configs ≡ Some self.old.configs }
        ensures calls { Grows (Some (reverse self.old.calls)) (Some (reverse self.new.calls))
            (call.Config path.now ∷ []) }
        ensures cause { HasCause self.old.faults self.new.faults result }
        ensures unrefused { result ≢ Err Trouble.Refused }
    {
        self.calls.note(&path.as_bytes());
        match find_text(self.configs.as_slice(), path) {
            Some(bytes) => match Bytes::copy_of(self.alloc, bytes.as_slice()) {
                Ok(copy) => Ok(copy),
                Err(WantOfMemory) => Err(Trouble::WantOfMemory),
            },
            None => {
                self.faults = self.faults.saturating_add(1);
                Err(Trouble::Failed)
            }
        }
    }

    fn port(&mut self, spec: &PortSpec) -> Result<MemoryPort, WantOfMemory>
        // The port plays the next script of its name.
        ensures script { IfOk result
            (λ port. port
            ≡ closed_port (Some spec.now) (steps_of (script_for self.old.scripts spec.now.name))
            (acts_of (script_for self.old.scripts spec.now.name))) }
        ensures ok { OnOk result
            (self.new
            ≡ record
            self.old {
              scripts = scripts_without self.old.scripts spec.now.name;
              calls = call.Port spec.now ∷ self.old.calls;
            }) }
        ensures err { OnErr result
            (self.new ≡ record self.old { calls = call.Port spec.now ∷ self.old.calls }) }

        ensures fresh { IfOk result (λ port. IsFresh spec.now (observe port)) }
        ensures texts { Some self.new.configs ≡ Some self.old.configs }
        ensures calls { Grows (Some (reverse self.old.calls)) (Some (reverse self.new.calls))
            (call.Port spec.now ∷ []) }
        ensures faults { self.new.faults ≡ self.old.faults }
    {
        self.calls.note(&spec);
        let made_for = spec.copy(self.alloc)?;
        let (steps, acts) = take_script(self.alloc, &mut self.scripts, spec.name.as_str());
        Ok(MemoryPort::made_for(self.alloc, Some(made_for), steps, acts))
    }
}
