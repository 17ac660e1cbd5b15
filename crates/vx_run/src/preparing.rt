ghost use Rattle.std.specs.Prelude.{◌≡◌, ◌≢◌, ◌↔◌, ◌<◌, ◌^◌, [], ◌∷◌, length, map, true, false, Ok, Err, Some, None, IfOk, IfErr, IfSome, IsSomeAnd, OnOk, OnErr};
ghost use Rattle.vx_ends.specs.Texts.{IsTextAt};
ghost use Rattle.std.specs.List.{list_all};
ghost use Rattle.vx_ends.specs.Silent.{observed_if};
ghost use Rattle.vx_ends.specs.Observation.{Grows, Rose};
ghost use Rattle.vx_ends.specs.declared.call.Call.TheVariants as call;
ghost use Rattle.vx_plan.specs.Accepted.{IsPlan};
ghost use Rattle.vx_plan.specs.Ports.{port_of};
ghost use Rattle.vx_hub.specs.Making.{IsUntouched, AreUntouched, ArePickers, AreSlots, AreBare, all_served};
ghost use Rattle.vx_reading.specs.Answers.{HasConditions};
ghost use Rattle.vx_reading.specs.Made.{is_made};
ghost use Rattle.vx_reading.specs.Reading.{IsReading};
ghost use Rattle.vx_run.specs.Answers.{CannotBegin, IsPlanAt, IsUnready, IsUnread, IsMisread};
ghost use Rattle.vx_run.specs.Calling.{HasBegun, HasCalledFor, call_of, port_calls, run_calls};
ghost use Rattle.vx_run.specs.Hosting.{AllKnown};

use crate::hosting::unknown_host;
use crate::transforms::{Transforms, make_transforms};
use std::alloc::Global;
use vx_cli::Fault;
use vx_ends::{Port, PortSpec, Trouble, World};
use vx_hub::{Named, NamedList, Parts, end_keepers};
use vx_keeping::NamedHosts;
use vx_plan::{Component, Plan};
use vx_reading::{PlanFault, ReadPlan, read_plan};
use vx_value::{Bytes, Text, VariableList, WantOfMemory};

/// What a run of the configuration at a path is made of: its plan, a port for each component that has a device, and what each transform
/// picks by or keeps. With `once` the ports of files end with what these have. Where there is none, a fault tells why, and so it does
/// where a component is to run a transform that the program doesn't hand in.
pub fn prepare<W: World, H: NamedHosts>(
    alloc: Global,
    file: &Text,
    once: bool,
    environment: &VariableList,
    world: &mut W,
    hosts: &H,
) -> Result<Parts<Option<W::Port>>, Fault>
    ensures stands { IfOk result
        (λ parts. IsPlanAt environment.now (W.texts world.old) file.now parts.plan) }
    ensures once { IfOk result (λ parts. parts.once ≡ once) }
    ensures few { IfOk result (λ parts. length parts.plan.components < 2 ^ 32) }
    ensures accepted { IfOk result (λ parts. IsPlan parts.plan) }
    ensures served { IfOk result (λ parts. all_served parts.plan.components ≡ true) }
    ensures pickers { IfOk result (λ parts. ArePickers parts.plan.components parts.pickers) }
    ensures keepers { IfOk result (λ parts. AreSlots parts.plan.components parts.keepers) }
    ensures bare { IfOk result (λ parts. AreBare parts.keepers) }
    ensures ports { IfOk result (λ parts. length parts.ports ≡ length parts.plan.components) }
    ensures untouched { IfOk result
        (λ parts. AreUntouched (observed_if W.Port.observed)
        (port_of parts.once parts.plan.global.data_dir) parts.plan.components parts.ports) }
    ensures known { IfOk result (λ parts. AllKnown (H.names hosts.now) parts.plan.components) }
    ensures unready { IfErr result
        (CannotBegin environment.now (H.names hosts.now) (W.texts world.old) file.now
        (W.faults world.old) (W.faults world.new)) }
    ensures called { IfOk result
        (λ parts. Grows (W.calls world.old) (W.calls world.new)
        (run_calls once file.now parts.plan)) }
    ensures begun { IfErr result
        (HasCalledFor environment.now (W.texts world.old) once file.now (W.calls world.old)
        (W.calls world.new)) }
    ensures texts { W.texts world.new ≡ W.texts world.old }
{
    let ReadPlan { plan, conditions } = plan_at(alloc, file, environment, world)?;
    if let Some(fault) = unknown_host(alloc, &plan, hosts) {
        return Err(fault);
    }
    let Ok(Transforms { pickers, keepers }) = make_transforms(alloc, &plan, conditions) else {
        return Err(Fault::WantOfMemory);
    };
    match ports(alloc, &plan, once, world) {
        Ok(ports) => Ok(Parts {
            plan,
            once,
            ports,
            pickers,
            keepers,
        }),
        Err(WantOfMemory) => {
            end_keepers(keepers);
            Err(Fault::WantOfMemory)
        }
    }
}

/// The plan of the configuration at a path, with its conditions.
pub(crate) fn plan_at<W: World>(
    alloc: Global,
    file: &Text,
    environment: &VariableList,
    world: &mut W,
) -> Result<ReadPlan, Fault>
    ensures stands { IfOk result
        (λ read. IsPlanAt environment.now (W.texts world.old) file.now read.plan) }
    ensures conditions { IfOk result HasConditions }
    ensures few { IfOk result (λ read. length read.plan.components < 2 ^ 32) }
    ensures accepted { IfOk result (λ read. IsPlan read.plan) }
    ensures made { IfOk result (λ read. list_all is_made read.plan.components ≡ true) }
    ensures unready { IfErr result
        (IsUnready environment.now (W.texts world.old) file.now (W.faults world.old)
        (W.faults world.new)) }
    ensures called { Grows (W.calls world.old) (W.calls world.new) (call.Config file.now ∷ []) }
    ensures texts { W.texts world.new ≡ W.texts world.old }
{
    let bytes = config(alloc, file, world)?;
    plan_of(alloc, &bytes, environment)
}

/// The bytes of the configuration at a path.
fn config<W: World>(alloc: Global, file: &Text, world: &mut W) -> Result<Bytes, Fault>
    ensures text { IfOk result (IsTextAt (W.texts world.old) file.now) }
    ensures unread { IfErr result (IsUnread file.now (W.faults world.old) (W.faults world.new)) }
    ensures called { Grows (W.calls world.old) (W.calls world.new) (call.Config file.now ∷ []) }
    ensures texts { W.texts world.new ≡ W.texts world.old }
{
    match world.config(file.as_str()) {
        Ok(bytes) => Ok(bytes),
        Err(Trouble::Failed) => match file.copy(alloc) {
            Ok(path) => Err(Fault::ConfigRead { path }),
            Err(WantOfMemory) => Err(Fault::WantOfMemory),
        },
        Err(Trouble::WantOfMemory) => Err(Fault::WantOfMemory),
        Err(Trouble::Refused) => unreachable!(),
    }
}

/// The plan of a configuration's bytes, with its conditions.
fn plan_of(alloc: Global, bytes: &Bytes, environment: &VariableList) -> Result<ReadPlan, Fault>
    ensures read { IfOk result (λ read. IsReading environment.now bytes.now (Ok read.plan)) }
    ensures conditions { IfOk result HasConditions }
    ensures few { IfOk result (λ read. length read.plan.components < 2 ^ 32) }
    ensures accepted { IfOk result (λ read. IsPlan read.plan) }
    ensures made { IfOk result (λ read. list_all is_made read.plan.components ≡ true) }
    ensures refused { IfErr result (IsMisread environment.now bytes.now) }
{
    match read_plan(alloc, bytes.as_slice(), environment) {
        Ok(read) => Ok(read),
        Err(PlanFault::WantOfMemory) => Err(Fault::WantOfMemory),
        Err(fault) => Err(Fault::ConfigRefused(fault)),
    }
}

/// A port for each component of a plan that has a device, in order, and none for another.
fn ports<W: World>(
    alloc: Global,
    plan: &Plan,
    once: bool,
    world: &mut W,
) -> Result<NamedList<Option<W::Port>>, WantOfMemory>
    ensures count { IfOk result (λ ports. length ports ≡ length plan.now.components) }
    ensures untouched { IfOk result
        (λ ports. AreUntouched (observed_if W.Port.observed)
        (port_of once plan.now.global.data_dir) plan.now.components ports) }
    ensures called { OnOk result
        (Grows (W.calls world.old) (W.calls world.new)
        (port_calls (port_of once plan.now.global.data_dir) plan.now.components)) }
    ensures begun { OnErr result
        (HasBegun (W.calls world.old) (W.calls world.new)
        (port_calls (port_of once plan.now.global.data_dir) plan.now.components)) }
    ensures texts { W.texts world.new ≡ W.texts world.old }
    ensures faults { W.faults world.new ≡ W.faults world.old }
{
    let mut ports = NamedList::new(alloc);
    for component in plan.components.as_slice() {
        let port = port(alloc, plan, component, once, world)?;
        match ports.push(port) {
            Ok(()) => {}
            Err(_) => return Err(WantOfMemory),
        }
    }
    Ok(ports)
}

/// The port of a component of a plan, if it has a device, and the component's name.
fn port<W: World>(
    alloc: Global,
    plan: &Plan,
    component: &Component,
    once: bool,
    world: &mut W,
) -> Result<Named<Option<W::Port>>, WantOfMemory>
    ensures untouched { IfOk result
        (λ named. IsUntouched (port_of once plan.now.global.data_dir component.now)
        (observed_if W.Port.observed named.port)) }
    ensures called { OnOk result
        (Grows (W.calls world.old) (W.calls world.new)
        (call_of (port_of once plan.now.global.data_dir component.now))) }
    ensures begun { OnErr result
        (HasBegun (W.calls world.old) (W.calls world.new)
        (call_of (port_of once plan.now.global.data_dir component.now))) }
    ensures texts { W.texts world.new ≡ W.texts world.old }
    ensures faults { W.faults world.new ≡ W.faults world.old }
{
    let name = component.name.copy(alloc)?;
    match spec_of(alloc, plan, component, once)? {
        Some(spec) => Ok(Named {
            name,
            port: Some(world.port(&spec)?),
        }),
        None => Ok(Named { name, port: None }),
    }
}

/// What the port of a component of a plan has to be; `None` exactly where it has no device.
fn spec_of(
    alloc: Global,
    plan: &Plan,
    component: &Component,
    once: bool,
) -> Result<Option<PortSpec>, WantOfMemory>
    ensures { IfOk result (λ spec. spec ≡ port_of once plan.now.global.data_dir component.now) }
{
    component.port(alloc, once, plan.global.data_dir.as_str())
}
