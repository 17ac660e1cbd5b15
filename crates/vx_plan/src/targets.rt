ghost use Rattle.std.specs.Prelude.{◌≡◌, ◌+◌, ◌++◌, ◌==◌, ℕ, [], IfOk, OnOk, map, filter, length};
ghost use Rattle.std.specs.List.{list_any};
ghost use Rattle.vx_value.specs.Texts.{ByteString};
ghost use Rattle.vx_plan.specs.declared.component.Component.{Component};
ghost use Rattle.vx_plan.specs.Kept.{readers_of, all_readers};
ghost use Rattle.vx_plan.specs.Numbers.{numbers_named, numbers_of_names};
ghost use Rattle.vx_plan.specs.Targets.{names_reading, reads_by, in_order, enter};

use crate::component::Component;
use crate::names::{same_text, text_le};
use std::alloc::Global;
use vx_graph::reads_port;
use vx_value::{ItemList, NumberList, Text, TextList, WantOfMemory};

/// The names of a component's readers: a list for each of its ports.
pub(crate) type PortLists = ItemList<TextList>;

/// The names of some components' readers: lists for each component.
pub(crate) type TargetLists = ItemList<PortLists>;

/// Whether a component reads a port of another by one of its inputs.
fn reads_by(reader: &Component, name: &str, port: &str, input: &Text) -> bool
    ensures { result ≡ reads_by reader.now name.now port.now input.now }
{
    reads_port(reader.name.as_str(), name, port, input.as_str())
}

/// Whether one of some inputs reads a port of a component.
pub(crate) fn any_reads(reader: &Component, name: &str, port: &str, inputs: &[Text]) -> bool
    ensures { result ≡ list_any (reads_by reader.now name.now port.now) inputs.now }
{
    match inputs {
        [] => false,
        [input, rest @ ..] => {
            reads_by(reader, name, port, input) || any_reads(reader, name, port, rest)
        }
    }
}

/// The names of the components that read a port of a component, in byte order.
fn readers(
    alloc: Global,
    components: &[Component],
    name: &str,
    port: &str,
) -> Result<TextList, WantOfMemory>
    ensures { IfOk result
        (λ names. names ≡ in_order (names_reading name.now port.now components.now)) }
{
    match components {
        [] => Ok(TextList::new(alloc)),
        [first, rest @ ..] => {
            let names = readers(alloc, rest, name, port)?;
            if any_reads(first, name, port, first.inputs.as_slice()) {
                entered(alloc, &first.name, names.as_slice())
            } else {
                Ok(names)
            }
        }
    }
}

/// A text put among sorted ones.
fn entered(alloc: Global, name: &Text, names: &[Text]) -> Result<TextList, WantOfMemory>
    ensures { IfOk result (λ list. list ≡ enter name.now names.now) }
{
    let mut list = TextList::new(alloc);
    let mut placed = false;
    for other in names {
        if !placed && text_le(name.as_str().as_bytes(), other.as_str().as_bytes()) {
            list.push(name.copy(alloc)?).map_err(|_| WantOfMemory)?;
            placed = true;
        }
        list.push(other.copy(alloc)?).map_err(|_| WantOfMemory)?;
    }
    if !placed {
        list.push(name.copy(alloc)?).map_err(|_| WantOfMemory)?;
    }
    Ok(list)
}

/// The names of the readers of each port of a component, in byte order.
fn readers_of(
    alloc: Global,
    components: &[Component],
    owner: &Component,
) -> Result<PortLists, WantOfMemory>
    ensures { IfOk result (λ lists. lists ≡ readers_of components.now owner.now) }
{
    let mut lists = PortLists::new(alloc);
    for i in 0..owner.ports() {
        let names = readers(alloc, components, owner.name.as_str(), owner.port_name(i))?;
        lists.push(names).map_err(|_| WantOfMemory)?;
    }
    Ok(lists)
}

/// The names of the readers of each port of each component, in byte order.
pub(crate) fn all_readers(
    alloc: Global,
    components: &[Component],
) -> Result<TargetLists, WantOfMemory>
    ensures { IfOk result (λ lists. lists ≡ all_readers components.now) }
{
    let mut lists = TargetLists::new(alloc);
    for owner in components {
        lists
            .push(readers_of(alloc, components, owner)?)
            .map_err(|_| WantOfMemory)?;
    }
    Ok(lists)
}

/// The numbers of some names, in their order: a component's number is its place in the plan.
pub(crate) fn numbers_of_names(
    alloc: Global,
    components: &[Component],
    names: &[Text],
) -> Result<NumberList, WantOfMemory>
    ensures { IfOk result (λ numbers. numbers ≡ numbers_of_names components.now names.now) }
{
    let mut numbers = NumberList::new(alloc);
    for name in names {
        push_numbers(&mut numbers, components, name.as_str())?;
    }
    Ok(numbers)
}

/// Adds the numbers of the components of a name.
fn push_numbers(
    numbers: &mut NumberList,
    components: &[Component],
    name: &str,
) -> Result<(), WantOfMemory>
    ensures { OnOk result (numbers.new ≡ numbers.old ++ numbers_named 0 components.now name.now) }
{
    for (i, component) in components.iter().enumerate() {
        if same_text(component.name.as_str(), name) {
            numbers.push(i as u64).map_err(|_| WantOfMemory)?;
        }
    }
    Ok(())
}
