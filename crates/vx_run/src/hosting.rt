// The transforms that the program hands in, each for a component of its name.
ghost use Rattle.std.specs.Prelude.{◌≡◌, ◌<◌, ◌^◌, length, IfSome, IfNone};
ghost use Rattle.vx_value.specs.Texts.{text_lt};
ghost use Rattle.vx_reading.specs.Made.{is_hosted};
ghost use Rattle.vx_run.specs.Hosting.{AllKnown, IsLeastUnknown, IsLesser, LacksHost, RunEach, is_unknown, now_run};

use std::alloc::Global;
use std::cmp::Ordering;
use vx_cli::Fault;
use vx_keeping::NamedHosts;
use vx_plan::{Component, Plan, Settings};
use vx_value::{Text, WantOfMemory};

/// Why a plan can't be run: a component is to run a transform that isn't handed in. Of several such names it is the least by its bytes.
/// Where no memory is found for that, it is want of memory.
pub(crate) fn unknown_host<H: NamedHosts>(alloc: Global, plan: &Plan, hosts: &H) -> Option<Fault>
    ensures some { IfSome result (LacksHost (H.names hosts.now) plan.now.components) }
    ensures none { IfNone result (AllKnown (H.names hosts.now) plan.now.components) }
{
    match least_unknown(plan.components.as_slice(), hosts) {
        Some(name) => match name.copy(alloc) {
            Ok(name) => Some(Fault::UnknownHost(name)),
            Err(WantOfMemory) => Some(Fault::WantOfMemory),
        },
        None => None,
    }
}

/// The least, by its bytes, of the names of components that are to run a transform which isn't handed in.
fn least_unknown<'a, H: NamedHosts>(components: &'a [Component], hosts: &H) -> Option<&'a Text>
    ensures some { IfSome result
        (λ name. IsLeastUnknown (H.names hosts.now) components.now name.now) }
    ensures none { IfNone result (AllKnown (H.names hosts.now) components.now) }
{
    match components {
        [] => None,
        [first, rest @ ..] => {
            let least = least_unknown(rest, hosts);
            if is_unknown(first, hosts) {
                Some(lesser(&first.name, least))
            } else {
                least
            }
        }
    }
}

/// Whether a component is to run a transform which isn't handed in.
fn is_unknown<H: NamedHosts>(component: &Component, hosts: &H) -> bool
    ensures { result ≡ is_unknown (H.names hosts.now) component.now }
{
    is_hosted(&component.settings) && !hosts.has(&component.name)
}

/// Whether a component of these settings runs a transform that is handed in.
fn is_hosted(settings: &Settings) -> bool
    ensures { result ≡ is_hosted settings.now }
{
    matches!(settings, Settings::Host)
}

/// The lesser of two texts by their bytes; the first, where they are the same or there is no second.
fn lesser<'a>(text: &'a Text, other: Option<&'a Text>) -> &'a Text
    ensures lesser { IfSome other.entry (λ that. IsLesser text.now that.now result.now) }
    ensures alone { IfNone other.entry (result.now ≡ text.now) }
{
    match other {
        Some(that) => {
            if text_lt(that.as_str(), text.as_str()) {
                that
            } else {
                text
            }
        }
        None => text,
    }
}

/// Whether a text comes before another by its bytes.
fn text_lt(a: &str, b: &str) -> bool
    ensures { result ≡ text_lt a.now b.now }
{
    match a.cmp(b) {
        Ordering::Less => true,
        Ordering::Equal => false,
        Ordering::Greater => false,
    }
}

/// Has each instance of a plan that is to run a transform which is handed in run one of its name, and no other instance run any. Its
/// number is its component's place.
pub(crate) fn assign_hosts<H: NamedHosts>(plan: &Plan, hosts: &mut H)
    requires { length plan.now.components < 2 ^ 32 }
    ensures names { H.names hosts.new ≡ H.names hosts.old }
    ensures each { RunEach (H.names hosts.new) (H.runs hosts.new) plan.now.components
        (length plan.now.components) }
{
    hosts.release();
    let components = plan.components.as_slice();
    for i in 0..components.len() {
        assign_host(&components[i], i as u32, hosts);
    }
}

/// Has an instance of a component run the first transform of its name that no instance runs, if it is to run one and there is one.
fn assign_host<H: NamedHosts>(component: &Component, instance: u32, hosts: &mut H)
    ensures names { H.names hosts.new ≡ H.names hosts.old }
    ensures runs { H.runs hosts.new ≡
        now_run (H.names hosts.old) (H.runs hosts.old) instance component.now }
{
    if is_hosted(&component.settings) {
        hosts.assign(&component.name, instance);
    }
}
