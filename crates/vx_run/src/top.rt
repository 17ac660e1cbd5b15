ghost use Rattle.std.specs.Prelude.{◌≡◌, length};
ghost use Rattle.vx_record.specs.Legal.{IsLegal, IsClosed};
ghost use Rattle.vx_ends.specs.Silent.{observed_if};
ghost use Rattle.vx_hub.specs.Making.{AreServed};
ghost use Rattle.vx_hub.specs.Remains.{AreNumbered, AreClosed, HasEnded, HasOnePlace, AllSpent, HasNotices, HasEnds};
ghost use Rattle.vx_run.specs.Answers.{IsAnswer};
ghost use Rattle.vx_cli.specs.Statuses.{ended_status};
ghost use Rattle.vx_run.specs.Calling.{HasCalled};
ghost use Rattle.vx_run.specs.Hosting.{AreHosted};
ghost use Rattle.vx_run.specs.Moments.{AreTimely};
ghost use Rattle.vx_run.specs.Running.{IsTrueTo, AreThere, AllReturned, HasInstalled, IsReadOut, IsCounted, NoneMissing};
ghost use Rattle.vx_run.specs.Showing.{IsShown, IsShownFirst, IsSummary};
ghost use Rattle.vx_run.specs.Reporting.{IsSaid};

use crate::ended::Ended;
use crate::reporting::{report, status_of, sum_up};
use crate::running::{Outcome, perform};
use std::alloc::Global;
use std::sync::Wait;
use vx_ends::{Clock, Printer, World};
use vx_keeping::NamedHosts;
use vx_value::{TextList, VariableList};

/// Runs the pipeline of a configuration, or judges one, as the words ask for, and prints why that didn't end well. Where the words ask for
/// it, it prints what each instance of a run counted, after all ports are closed.
///
/// `words` are the program's words without its own name, and `hosts` the transforms that the program hands in for the components of the
/// type `host`: a run where one of these has none of its name doesn't begin. A run that ends has read its input to its end, but for
/// sources that failed, and for runs that were given up; it may wait for as long as a port has nothing.
pub fn vector<R: Wait, W: World, C: Clock, H: NamedHosts + Drop, P: Printer, L: Printer>(
    rt: &R,
    alloc: Global,
    words: &TextList,
    environment: &VariableList,
    world: W,
    clock: &C,
    hosts: H,
    out: &mut P,
    err: &mut L,
) -> Ended<W>
    ensures observed { IsTrueTo (observed_if W.Port.observed) result.history result.ports result.fault }
    ensures returned { AllReturned result.history result.fault }
    ensures installed { HasInstalled words.now environment.now
        (W.texts world) result.history result.fault }
    ensures copies { HasOnePlace result.history }
    ensures spent { AllSpent result.history }
    ensures notices { HasNotices result.history }
    ensures read { IsReadOut result.history result.fault }
    ensures ended { HasEnds (length result.ports) result.history }
    ensures legal { IsLegal result.history }
    ensures served { AreServed result.history }
    ensures there { AreThere result.history result.ports }
    ensures complete { IsClosed result.history }
    ensures counted { IsCounted result.history (length result.ports) result.tallies result.fault }
    ensures closed { AreClosed (observed_if W.Port.observed) result.ports }
    ensures numbers { AreNumbered 0 result.ports }
    ensures none_missing { NoneMissing words.now environment.now
        (W.texts world) result.history result.ports result.fault }
    ensures answer { IsAnswer words.now environment.now (H.names hosts) (W.texts world)
        (W.faults world) (W.faults result.world) result.history result.fault }
    ensures hosted { AreHosted (H.names hosts) result.history }
    ensures status { result.status ≡ ended_status result.fault }
    ensures said { IsSaid (err.new ≡ err.old) (L.printed err.old) (L.printed err.new)
        (L.faults err.old) (L.faults err.new) result.fault }
    ensures shown { IsShown words.now environment.now (W.texts world) result.history
        (out.new ≡ out.old) (P.printed out.old) (P.printed out.new) (P.faults out.old)
        (P.faults out.new) result.fault }
    ensures moments { AreTimely (C.gave clock.now) result.history }
    ensures called { HasCalled words.now environment.now (W.texts world) (W.calls world)
        (W.calls result.world) result.history result.fault }
    ensures texts { W.texts result.world ≡ W.texts world }
{
    let mut world = world;
    let mut hosts = hosts;
    let Outcome {
        fault,
        history,
        tallies,
        summary,
        ports,
    } = perform_and_report(
        rt,
        alloc,
        words,
        environment,
        &mut world,
        clock,
        &mut hosts,
        out,
        err,
    );
    let fault = sum_up(summary, fault, out);
    Ended {
        status: status_of(&fault),
        fault,
        history,
        tallies,
        ports,
        world,
    }
}

/// Does what the words ask for, and prints why that didn't end well.
fn perform_and_report<R: Wait, W: World, C: Clock, H: NamedHosts, P: Printer, L: Printer>(
    rt: &R,
    alloc: Global,
    words: &TextList,
    environment: &VariableList,
    world: &mut W,
    clock: &C,
    hosts: &mut H,
    out: &mut P,
    err: &mut L,
) -> Outcome<Option<W::Port>>
    ensures observed { IsTrueTo (observed_if W.Port.observed) result.history result.ports result.fault }
    ensures returned { AllReturned result.history result.fault }
    ensures installed { HasInstalled words.now environment.now
        (W.texts world.old) result.history result.fault }
    ensures ended { HasEnded (length result.ports) result.history }
    ensures read { IsReadOut result.history result.fault }
    ensures counted { IsCounted result.history (length result.ports) result.tallies result.fault }
    ensures closed { AreClosed (observed_if W.Port.observed) result.ports }
    ensures numbers { AreNumbered 0 result.ports }
    ensures none_missing { NoneMissing words.now environment.now
        (W.texts world.old) result.history result.ports result.fault }
    ensures answer { IsAnswer words.now environment.now (H.names hosts.old) (W.texts world.old)
        (W.faults world.old) (W.faults world.new) result.history result.fault }
    ensures hosted { AreHosted (H.names hosts.old) result.history }
    ensures said { IsSaid (err.new ≡ err.old) (L.printed err.old) (L.printed err.new)
        (L.faults err.old) (L.faults err.new) result.fault }
    ensures summary { IsSummary words.now result.history result.fault result.summary }
    ensures shown { IsShownFirst words.now environment.now (W.texts world.old) (out.new ≡ out.old)
        (P.printed out.old) (P.printed out.new) (P.faults out.old) (P.faults out.new) result.fault }
    ensures moments { AreTimely (C.gave clock.now) result.history }
    ensures called { HasCalled words.now environment.now (W.texts world.old) (W.calls world.old)
        (W.calls world.new) result.history result.fault }
    ensures texts { W.texts world.new ≡ W.texts world.old }
{
    let outcome = perform(rt, alloc, words, environment, world, clock, hosts, out);
    Outcome {
        fault: report(alloc, outcome.fault, err),
        ..outcome
    }
}
