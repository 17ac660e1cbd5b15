use std::alloc::Global;
use std::process::Abort;
use std::test::Fail;
use vx_ends::{Form, PortSpec};
use vx_plan::{Plan, first_plan};

// Checks that the source has one target.
fn has_one_target(rt: &impl Abort, plan: &Plan) {
    assert_eq!(rt; plan.targets("in", 0).len(), 1);
}

// Checks that the sink alone reads the source.
fn has_one_reader(rt: &impl Abort, alloc: Global, plan: &Plan) -> Result<(), Fail> {
    let numbers = plan.readers(alloc, "in", 0)?;
    assert_eq!(rt; numbers.as_slice(), [1].as_slice());
    Ok(())
}

// Checks that a port is for standard output.
fn is_standard_output(rt: &impl Abort, spec: &PortSpec) {
    assert_eq!(rt; spec.name.as_str(), "out");
    match spec.form {
        Form::Console { err } => assert!(rt; !err),
        _ => assert!(rt; false, "it is something else"),
    }
}

// Checks that the sink has a port.
fn has_port(rt: &impl Abort, alloc: Global, plan: &Plan) -> Result<(), Fail> {
    match plan.port_spec(alloc, "out", false)? {
        None => assert!(rt; false, "a console has a port"),
        Some(spec) => is_standard_output(rt, &spec),
    }
    Ok(())
}

// A copy of the first plan.
fn copied_plan(alloc: Global) -> Result<Plan, Fail> {
    let plan = first_plan(alloc)?;
    Ok(plan.copy(alloc)?)
}

#[test]
fn first_plan_reads_standard_input(rt: HostRuntime) -> Result<(), Fail> {
    let plan = copied_plan(rt.alloc())?;
    assert_eq!(rt; plan.components.len(), 2);
    assert!(rt; !plan.acknowledged("in"));
    has_one_target(&rt, &plan);
    has_one_reader(&rt, rt.alloc(), &plan)?;
    has_port(&rt, rt.alloc(), &plan)
}
