ghost use Rattle.std.specs.Prelude.{◌≡◌, ◌≢◌, ◌⊎◌, ◌&&◌, List, ◌<◌, ◌^◌, [], length, true, false, Some, None, IfOk, if◌then◌else◌};
ghost use Rattle.vx_ends.specs.Silent.{observed_if};
ghost use Rattle.vx_plan.specs.Accepted.{IsPlan};
ghost use Rattle.vx_plan.specs.Ports.{port_of};
ghost use Rattle.vx_record.specs.Installs.{started};
ghost use Rattle.vx_record.specs.TallyLists.{tallies_of};
ghost use Rattle.vx_hub.specs.Making.{AreUntouched, ArePickers, AreSlots, AreBare, all_served};
ghost use Rattle.vx_hub.specs.Remains.{HasEnded, AreNumbered, AreClosed};
ghost use Rattle.vx_hub.specs.Standing.{IsHub, IsSameRun, GoesOn};
ghost use Rattle.vx_value.specs.Texts.{ByteString};
ghost use Rattle.vx_cli.specs.Commands.{IsRun, has_once};
ghost use Rattle.vx_run.specs.Answers.{IsAnswer, IsJudged};
ghost use Rattle.vx_run.specs.Calling.{HasCalled};
ghost use Rattle.vx_run.specs.Hosting.{AreHosted};
ghost use Rattle.vx_run.specs.Moments.{AreTimely};
ghost use Rattle.vx_run.specs.Showing.{IsShownFirst, IsSummary, is_summed, summary_for, summary_of};
ghost use Rattle.vx_run.specs.Running.{IsTrueTo, AllReturned, HasInstalled, IsInForce, IsReadOut, IsCounted, HasEach, NoneMissing};

use crate::driver::drive;
use crate::hosting::assign_hosts;
use crate::judging::judge;
use crate::preparing::prepare;
use crate::validating::validate;
use std::alloc::Global;
use std::sync::Wait;
use vx_cli::{CliFault, Command, Fault, read_words, summary_line};
use vx_ends::{Clock, Port, Printer, World};
use vx_history::History;
use vx_hub::{Hub, NewRefused, NumberedList, Parts, Remains, engine_laws};
use vx_keeping::{Hosts, NamedHosts};
use vx_record::{Entry, TallyList};
use vx_value::{Bytes, Text, TextList, VariableList, WantOfMemory};

/// A run that ended, before its counts are printed.
#[derive(Drop)]
pub(crate) struct Outcome<P> {
    pub fault: Option<Fault>,
    pub history: History<Entry>,
    pub tallies: TallyList,
    /// What is to be printed of what the instances counted.
    pub summary: Option<Bytes>,
    pub ports: NumberedList<P>,
}

/// Does what the words ask for.
pub(crate) fn perform<R: Wait, W: World, C: Clock, H: NamedHosts, P: Printer>(
    rt: &R,
    alloc: Global,
    words: &TextList,
    environment: &VariableList,
    world: &mut W,
    clock: &C,
    hosts: &mut H,
    out: &mut P,
) -> Outcome<Option<W::Port>>
    ensures answer { IsAnswer words.now environment.now (H.names hosts.old) (W.texts world.old)
        (W.faults world.old) (W.faults world.new) result.history result.fault }
    ensures hosted { AreHosted (H.names hosts.old) result.history }
    ensures summary { IsSummary words.now result.history result.fault result.summary }
    ensures shown { IsShownFirst words.now environment.now (W.texts world.old) (out.new ≡ out.old)
        (P.printed out.old) (P.printed out.new) (P.faults out.old) (P.faults out.new) result.fault }
    ensures observed { IsTrueTo (observed_if W.Port.observed) result.history result.ports result.fault }
    ensures returned { AllReturned result.history result.fault }
    ensures installed { HasInstalled words.now environment.now
        (W.texts world.old) result.history result.fault }
    ensures ended { HasEnded (length result.ports) result.history }
    ensures read { IsReadOut result.history result.fault }
    ensures counted { IsCounted result.history (length result.ports) result.tallies result.fault }
    ensures closed { AreClosed (observed_if W.Port.observed) result.ports }
    ensures numbers { AreNumbered 0 result.ports }
    ensures none_missing { NoneMissing words.now environment.now
        (W.texts world.old) result.history result.ports result.fault }
    ensures moments { AreTimely (C.gave clock.now) result.history }
    ensures called { HasCalled words.now environment.now (W.texts world.old) (W.calls world.old)
        (W.calls world.new) result.history result.fault }
    ensures texts { W.texts world.new ≡ W.texts world.old }
{
    match read_words(alloc, words) {
        Ok(
            Command::Run {
                config,
                once,
                stats,
            },
        ) => run(
            rt,
            alloc,
            &config,
            once,
            stats,
            environment,
            world,
            clock,
            hosts,
        ),
        Ok(Command::Validate { path }) => {
            unbegun(alloc, validate(alloc, &path, environment, world, out))
        }
        Err(CliFault::Usage) => unbegun(alloc, Some(Fault::Usage)),
        Err(CliFault::WantOfMemory) => unbegun(alloc, Some(Fault::WantOfMemory)),
    }
}

/// Runs the configuration at a path, to the end of the files that are there where `once` holds, and sums up what its instances counted
/// where `stats` holds.
fn run<R: Wait, W: World, C: Clock, H: NamedHosts>(
    rt: &R,
    alloc: Global,
    file: &Text,
    once: bool,
    stats: bool,
    environment: &VariableList,
    world: &mut W,
    clock: &C,
    hosts: &mut H,
) -> Outcome<Option<W::Port>>
    ensures answer { (words : List ByteString) → IsRun words file.now →
        IsAnswer words environment.now (H.names hosts.old) (W.texts world.old)
        (W.faults world.old) (W.faults world.new) result.history result.fault }
    ensures hosted { AreHosted (H.names hosts.old) result.history }
    ensures observed { IsTrueTo (observed_if W.Port.observed) result.history result.ports result.fault }
    ensures returned { AllReturned result.history result.fault }
    ensures installed { (words : List ByteString) → IsRun words file.now → has_once words ≡ once →
        HasInstalled words environment.now (W.texts world.old) result.history result.fault }
    ensures ended { HasEnded (length result.ports) result.history }
    ensures read { IsReadOut result.history result.fault }
    ensures counted { IsCounted result.history (length result.ports) result.tallies result.fault }
    ensures closed { AreClosed (observed_if W.Port.observed) result.ports }
    ensures numbers { AreNumbered 0 result.ports }
    ensures none_missing { (words : List ByteString) → IsRun words file.now →
        NoneMissing words environment.now
        (W.texts world.old) result.history result.ports result.fault }
    ensures summary { result.summary ≡ summary_for stats result.history result.fault }
    ensures unprinted { result.fault ≢ Some Fault.PrintFailed }
    ensures moments { AreTimely (C.gave clock.now) result.history }
    ensures called { (words : List ByteString) → IsRun words file.now → has_once words ≡ once →
        HasCalled words environment.now (W.texts world.old) (W.calls world.old)
        (W.calls world.new) result.history result.fault }
    ensures texts { W.texts world.new ≡ W.texts world.old }
{
    match prepare(alloc, file, once, environment, world, hosts) {
        Ok(parts) => {
            assign_hosts(&parts.plan, hosts);
            begin(rt, alloc, parts, stats, clock, hosts)
        }
        Err(fault) => unbegun(alloc, Some(fault)),
    }
}

/// A run that didn't begin.
fn unbegun<P>(alloc: Global, fault: Option<Fault>) -> Outcome<P>
    ensures fault { result.fault ≡ fault }
    ensures history { result.history ≡ [] }
    ensures tallies { result.tallies ≡ [] }
    ensures summary { result.summary ≡ None }
    ensures ports { result.ports ≡ [] }
    ensures returned { AllReturned result.history result.fault }
    ensures ended { HasEnded (length result.ports) result.history }
    ensures read { IsReadOut result.history result.fault }
    ensures counted { IsCounted result.history (length result.ports) result.tallies result.fault }
{
    Outcome {
        fault,
        history: History::new(),
        tallies: TallyList::new(alloc),
        summary: None,
        ports: NumberedList::new(alloc),
    }
}

/// Runs a plan between its ports.
fn begin<R: Wait, P: Port, C: Clock, H: Hosts>(
    rt: &R,
    alloc: Global,
    parts: Parts<P>,
    stats: bool,
    clock: &C,
    hosts: &mut H,
) -> Outcome<P>
    requires few { length parts.plan.components < 2 ^ 32 }
    requires ports { length parts.ports ≡ length parts.plan.components }
    requires untouched { AreUntouched P.observed
        (port_of parts.once parts.plan.global.data_dir) parts.plan.components parts.ports }
    requires accepted { IsPlan parts.plan }
    requires served { all_served parts.plan.components ≡ true }
    requires pickers { ArePickers parts.plan.components parts.pickers }
    requires keepers { AreSlots parts.plan.components parts.keepers }
    requires bare { AreBare parts.keepers }
    ensures judged { IsJudged result.history result.fault }
    ensures observed { IsTrueTo P.observed result.history result.ports result.fault }
    ensures returned { AllReturned result.history result.fault }
    ensures installed { IsInForce parts.once parts.plan result.history result.fault }
    ensures ended { HasEnded (length result.ports) result.history }
    ensures read { IsReadOut result.history result.fault }
    ensures counted { IsCounted result.history (length result.ports) result.tallies result.fault }
    ensures summary { result.summary ≡ summary_for stats result.history result.fault }
    ensures closed { AreClosed P.observed result.ports }
    ensures numbers { AreNumbered 0 result.ports }
    ensures none_missing { HasEach parts.plan result.history result.ports result.fault }
    ensures moments { AreTimely (C.gave clock.now) result.history }
{
    match Hub::new(alloc, parts, clock.now()) {
        Ok(hub) => finish(rt, alloc, hub, stats, clock, hosts),
        Err(NewRefused { parts }) => {
            let _ports = parts.into_ports();
            unbegun(alloc, Some(Fault::WantOfMemory))
        }
    }
}

/// Runs a hub to its end.
fn finish<R: Wait, P: Port, C: Clock, H: Hosts>(
    rt: &R,
    alloc: Global,
    hub: Hub<P>,
    stats: bool,
    clock: &C,
    hosts: &mut H,
) -> Outcome<P>
    requires hub { IsHub P.observed hub }
    requires moment { C.gave clock.now hub.engine.run.latest }
    requires moments { AreTimely (C.gave clock.now) hub.engine.log }
    ensures judged { IsJudged result.history result.fault }
    ensures observed { IsTrueTo P.observed result.history result.ports result.fault }
    ensures returned { AllReturned result.history result.fault }
    ensures on { GoesOn hub.engine.log result.history }
    ensures same { IsSameRun hub.engine.log result.history }
    ensures moments { AreTimely (C.gave clock.now) result.history }
    ensures ended { HasEnded (length result.ports) result.history }
    ensures read { IsReadOut result.history result.fault }
    ensures counted { IsCounted result.history (length result.ports) result.tallies result.fault }
    ensures summary { result.summary ≡ summary_for stats result.history result.fault }
    ensures closed { AreClosed P.observed result.ports }
    ensures numbers { AreNumbered 0 result.ports }
    ensures count { length result.ports ≡ length (started result.history) }
{
    let mut hub = hub;
    drive(rt, alloc, &mut hub, clock, hosts);
    engine_laws();
    let fault = judge(alloc, &hub);
    let Counted {
        tallies,
        summary,
        fault,
    } = count(alloc, &hub, stats, fault);
    let Remains { ports, history } = hub.end();
    Outcome {
        fault,
        history,
        tallies,
        summary,
        ports,
    }
}

/// What each instance of an ended run counted, what is to be printed of it, and the run's fault.
struct Counted {
    tallies: TallyList,
    summary: Option<Bytes>,
    fault: Option<Fault>,
}

/// What the instances counted, and what is to be printed of it where `stats` holds. Where memory was wanting, or none is found for that,
/// nothing is counted, and that is the run's fault.
fn count<P: Port>(alloc: Global, hub: &Hub<P>, stats: bool, fault: Option<Fault>) -> Counted
    requires { IsHub P.observed hub.now }
    ensures counted { IsCounted hub.now.engine.log
        (length (started hub.now.engine.log)) result.tallies result.fault }
    ensures summary { result.summary ≡ summary_for stats hub.now.engine.log result.fault }
    ensures kept { (result.fault ≡ fault) ⊎ (result.fault ≡ Some Fault.WantOfMemory) }
{
    if hub.starved() {
        return uncounted(alloc);
    }
    let Ok(tallies) = tallies(alloc, hub) else {
        return uncounted(alloc);
    };
    match summary(alloc, hub, stats && is_summed(&fault)) {
        Ok(summary) => Counted {
            tallies,
            summary,
            fault,
        },
        Err(WantOfMemory) => uncounted(alloc),
    }
}

/// Nothing is counted, for want of memory.
fn uncounted(alloc: Global) -> Counted
    ensures none { result.tallies ≡ [] }
    ensures summary { result.summary ≡ None }
    ensures short { result.fault ≡ Some Fault.WantOfMemory }
{
    Counted {
        tallies: TallyList::new(alloc),
        summary: None,
        fault: Some(Fault::WantOfMemory),
    }
}

/// Whether something is to be printed of what a run counted that ends with this fault, or with none.
fn is_summed(fault: &Option<Fault>) -> bool
    ensures { result ≡ is_summed fault.now }
{
    match fault {
        None => true,
        Some(
            Fault::Usage
            | Fault::ConfigRead { .. }
            | Fault::ConfigRefused(_)
            | Fault::UnknownHost(_)
            | Fault::WantOfMemory,
        ) => false,
        Some(
            Fault::Numbers { .. }
            | Fault::SourceFailed { .. }
            | Fault::ConfirmFailed { .. }
            | Fault::PrintFailed,
        ) => true,
    }
}

/// What is to be printed of what the instances counted, where it is wanted.
fn summary<P: Port>(
    alloc: Global,
    hub: &Hub<P>,
    wanted: bool,
) -> Result<Option<Bytes>, WantOfMemory>
    requires hub { IsHub P.observed hub.now }
    requires fed { hub.now.engine.run.out_of_memory ≡ false }
    ensures { IfOk result
        (λ text. text ≡ if wanted then Some (summary_of hub.now.engine.log) else None) }
{
    if !wanted {
        return Ok(None);
    }
    let mut lines = Bytes::new(alloc);
    for number in 0..hub.instances() {
        let class = hub.class_of(number);
        let tally = hub.tally(number);
        summary_line(alloc, class, hub.name_of(number), &tally, &mut lines)?;
    }
    Ok(Some(lines))
}

/// What each instance counted, in order.
fn tallies<P: Port>(alloc: Global, hub: &Hub<P>) -> Result<TallyList, WantOfMemory>
    requires hub { IsHub P.observed hub.now }
    requires fed { hub.now.engine.run.out_of_memory ≡ false }
    ensures { IfOk result
        (λ list. list ≡ tallies_of hub.now.engine.log (length (started hub.now.engine.log))) }
{
    let mut list = TallyList::new(alloc);
    for instance in 0..hub.instances() {
        match list.push(hub.tally(instance)) {
            Ok(()) => {}
            Err(_) => return Err(WantOfMemory),
        }
    }
    Ok(list)
}
