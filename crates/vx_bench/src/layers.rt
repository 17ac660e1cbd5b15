use std::alloc::Global;
use vx_plan::{Class, Component, ComponentList, Plan, Settings, first_plan};
use vx_value::{Text, TextList, WantOfMemory};

/// How many layers of two transforms each there are.
const LAYERS: u32 = 100;

/// The name of a transform of a layer.
fn name_of(alloc: Global, side: char, layer: u32) -> Result<Text, WantOfMemory> {
    let name = format!(in alloc; "{side}{layer}")?;
    Text::copy_of(alloc, name.as_str())
}

/// The inputs of the layer behind so many: the source, or both transforms of the layer before.
fn inputs_behind(alloc: Global, layers: u32) -> Result<TextList, WantOfMemory> {
    let mut inputs = TextList::new(alloc);
    if layers == 0 {
        inputs
            .push(Text::copy_of(alloc, "in")?)
            .map_err(|_| WantOfMemory)?;
        return Ok(inputs);
    }
    for side in ['a', 'b'] {
        inputs
            .push(name_of(alloc, side, layers - 1)?)
            .map_err(|_| WantOfMemory)?;
    }
    Ok(inputs)
}

/// Adds a transform of a layer.
fn push_transform(
    alloc: Global,
    components: &mut ComponentList,
    side: char,
    layer: u32,
) -> Result<(), WantOfMemory> {
    let transform = Component {
        name: name_of(alloc, side, layer)?,
        class: Class::Transform,
        inputs: inputs_behind(alloc, layer)?,
        settings: Settings::Host,
    };
    components.push(transform).map_err(|_| WantOfMemory)
}

/// A source, the layers, each of which reads both transforms of the one before, and a sink that reads the last.
fn layered(alloc: Global, acknowledges: bool) -> Result<Plan, WantOfMemory> {
    let first = first_plan(alloc)?;
    let mut ends = first.components.into_vec();
    let sink = ends.pop();
    let source = ends.pop();
    let mut components = ComponentList::new(alloc);
    if let Some(source) = source {
        components.push(source).map_err(|_| WantOfMemory)?;
    }
    for layer in 0..LAYERS {
        for side in ['a', 'b'] {
            push_transform(alloc, &mut components, side, layer)?;
        }
    }
    if let Some(mut sink) = sink {
        sink.inputs = inputs_behind(alloc, LAYERS)?;
        if let Settings::Console { sink, .. } = &mut sink.settings {
            sink.acknowledgements = acknowledges;
        }
        components.push(sink).map_err(|_| WantOfMemory)?;
    }
    Plan::new(alloc, first.global, components)
}

/// How many targets the components of the layers have, and whether the source's batches wait: where the sink acknowledges,
/// and where it doesn't.
pub fn judged(alloc: Global) -> Result<(u64, bool, bool), WantOfMemory> {
    let plan = layered(alloc, true)?;
    let mut targets: u64 = 0;
    for component in plan.components.as_slice() {
        let readers = plan.targets(component.name.as_str(), 0);
        targets = targets.saturating_add(readers.len() as u64);
    }
    let silent = layered(alloc, false)?;
    Ok((targets, plan.acknowledged("in"), silent.acknowledged("in")))
}
