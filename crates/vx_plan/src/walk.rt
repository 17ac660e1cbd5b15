ghost use Rattle.std.specs.Prelude.{◌≡◌, None, Some, MatchOption};
ghost use Rattle.std.specs.List.{list_any};
ghost use Rattle.vx_plan.specs.Targets.{acknowledged, is_among};
ghost use Rattle.vx_plan.specs.Walks.{names_in, reads_some, next_reader, IsWalked};

use crate::component::Component;
use crate::names::same_text;
use crate::plan::Plan;
use crate::targets::any_reads;

/// Names of components, the last one put first. They stand on the stack, since the walk takes no memory.
#[derive(Clone, Copy)]
pub(crate) enum Names<'a> {
    Nobody,
    One(&'a Names<'a>, &'a str),
}

/// Whether a name is among some.
fn is_among(names: &Names, name: &str) -> bool
    ensures { result ≡ is_among (names_in names.now) name.now }
{
    match names {
        Names::Nobody => false,
        Names::One(rest, first) => same_text(name, first) || is_among(rest, name),
    }
}

/// Whether a component reads some port of another.
fn reads_some(owner: &Component, reader: &Component) -> bool
    ensures { result ≡ reads_some owner.now reader.now }
{
    for i in 0..owner.ports() {
        let port = owner.port_name(i);
        if any_reads(reader, owner.name.as_str(), port, reader.inputs.as_slice()) {
            return true;
        }
    }
    false
}

/// The name of the first component that reads another and isn't among some.
fn next_reader<'a>(components: &'a [Component], owner: &Component, seen: &Names) -> Option<&'a str>
    ensures { MatchOption result
        (next_reader components.now owner.now (names_in seen.now) ≡ None)
        (λ name. next_reader components.now owner.now (names_in seen.now) ≡ Some name.now) }
{
    for reader in components {
        if reads_some(owner, reader) && !is_among(seen, reader.name.as_str()) {
            return Some(reader.name.as_str());
        }
    }
    None
}

/// Whether a walk along targets leads from one of some components to a sink that acknowledges.
///
/// It goes on from the last name, and leaves it once each of its targets was seen. So each look at all components finds one
/// that wasn't seen or leaves one, and there are at most two looks for each component.
pub(crate) fn leads_on<'a>(plan: &'a Plan, todo: &'a Names<'a>, seen: &'a Names<'a>) -> bool
    requires { IsWalked plan.now (names_in seen.now) (names_in todo.now) }
    ensures { result ≡ list_any (acknowledged plan.now) (names_in todo.now) }
{
    let Names::One(rest, name) = todo else {
        return false;
    };
    let Some(owner) = plan.component(name) else {
        return leads_on(plan, rest, seen);
    };
    if owner.settings.acknowledges() {
        return true;
    }
    match next_reader(plan.components.as_slice(), owner, seen) {
        None => leads_on(plan, rest, seen),
        Some(reader) => leads_on(plan, &Names::One(todo, reader), &Names::One(seen, reader)),
    }
}

/// Whether such a walk leads from a component.
pub(crate) fn leads(plan: &Plan, name: &str) -> bool
    ensures { result ≡ acknowledged plan.now name.now }
{
    let first = Names::One(&Names::Nobody, name);
    leads_on(plan, &first, &first)
}
