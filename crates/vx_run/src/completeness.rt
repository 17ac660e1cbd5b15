//! What the clauses of `vector` come to, of a run in which nothing failed and nothing was refused. A law's function does nothing:
//! what it ensures is proved.

ghost use Rattle.std.specs.Prelude.{◌≡◌, ◌⊎◌, ◌∷◌, ◌++◌, ℕ, Bool, true, List, Option, Some, None};
ghost use Rattle.vx_ends.specs.declared.world.Config.{Config};
ghost use Rattle.vx_value.specs.Texts.{ByteString};
ghost use Rattle.vx_value.specs.declared.variable.Variable.{Variable};
ghost use Rattle.vx_status.specs.declared.batch_status.BatchStatus.{BatchStatus};
ghost use Rattle.vx_status.specs.declared.batch_status.BatchStatus.TheVariants.{Delivered};
ghost use Rattle.vx_ends.specs.declared.position.Position.{Position};
ghost use Rattle.vx_record.specs.declared.entry.Entry.TheVariants.{Notice, Confirm};
ghost use Rattle.vx_record.specs.Legal.{IsLegal};
ghost use Rattle.vx_plan.specs.declared.component.Component.{Component};
ghost use Rattle.vx_record.specs.Records.{Record};
ghost use Rattle.vx_hub.specs.Remains.{AreNumbered, AreObservedButGiven};
ghost use Rattle.vx_hub.specs.declared.parts.Numbered.{Numbered};
ghost use Rattle.vx_cli.specs.declared.fault.Fault.{Fault};
ghost use Rattle.vx_cli.specs.declared.fault.Fault.TheVariants.{WantOfMemory};
ghost use Rattle.vx_run.specs.Hosting.{AllKnown};
ghost use Rattle.vx_run.specs.Answers.{IsAnswer, WentOn, AllConfirmed};
ghost use Rattle.vx_run.specs.Completeness.{IsFaultless, IsHostless, IsRefusedAnew, PrintBlames, HasEndedWell, ErroredBlames, RejectedBlames, NoneDueAtEnd};
ghost use Rattle.vx_run.specs.Showing.{IsShown};
ghost use Rattle.vx_run.specs.Running.{AllRead, IsReadOut, NoneMissing};

use vx_cli::one_command;
use vx_ends::{Port, Printer};
use vx_reading::one_answer;

/// A failed print is told only where the printer's count of failed prints rose.
pub fn failed_prints<P: Printer>()
    ensures { (words : List ByteString) (environment : List Variable) (texts : Option (List Config))
        (h : Record) (old new : P) (fault : Option Fault) →
        IsShown words environment texts h (new ≡ old) (P.printed old) (P.printed new) (P.faults old)
        (P.faults new) fault → PrintBlames (P.faults old) (P.faults new) fault }
{}

/// A run in which nothing failed and nothing was refused ends well, or for want of memory; or its text was refused, though it stands
/// for a plan, since a condition of that has a pattern; or a component of that plan was to run a transform that isn't handed in.
pub fn faultless_answers<P: Port>()
    ensures answers { (words : List ByteString) (environment : List Variable)
        (names : List ByteString) (configs : List Config) (before now was is : ℕ) (h : Record)
        (ports : List (Numbered P)) (fault : Option Fault) →
        (faultless : IsFaultless P.observed words environment configs before now was is h ports) →
        IsLegal h → IsAnswer words environment names (Some configs) before now h fault →
        PrintBlames was is fault → AreObservedButGiven P.observed h ports → AreNumbered 0 ports →
        NoneMissing words environment (Some configs) h ports fault →
        (fault ≡ None)
        ⊎ ((fault ≡ Some WantOfMemory)
        ⊎ (IsRefusedAnew faultless.plan.components fault
        ⊎ IsHostless names faultless.plan.components fault)) }
    ensures hosted { (names : List ByteString) (components : List Component) (fault : Option Fault) →
        AllKnown names components → IsHostless names components fault → ⊥ }
{
    one_command();
    one_answer();
}

/// A run that ended well wasn't given up, each source was told its end, and no last confirm failed.
pub fn well_ended()
    ensures going { (words : List ByteString) (environment : List Variable) (names : List ByteString)
        (texts : Option (List Config)) (before now : ℕ) (h : Record) →
        IsAnswer words environment names texts before now h None → WentOn h }
    ensures read { (h : Record) → IsReadOut h None → AllRead h }
    ensures confirmed { (words : List ByteString) (environment : List Variable)
        (names : List ByteString) (texts : Option (List Config)) (before now : ℕ) (h : Record) →
        IsAnswer words environment names texts before now h None → AllConfirmed h }
{}

/// Where a source ended in a run that wasn't given up, no confirm was due to it.
pub fn confirmed_ends()
    ensures { NoneDueAtEnd }
{}

/// A batch is Errored only where an attempt failed before, and Rejected only where one was refused.
pub fn blamed_notices()
    ensures errored { ErroredBlames }
    ensures rejected { RejectedBlames }
{}

/// Where nothing failed and nothing was refused, each confirm of a run that ended well was made.
pub fn faultless_confirms<P: Port>()
    ensures { (words : List ByteString) (environment : List Variable) (names : List ByteString)
        (configs : List Config) (before now was is : ℕ) (h : Record) (ports : List (Numbered P)) →
        HasEndedWell P.observed words environment names configs before now was is h ports →
        (later earlier : Record) (i : ℕ) (positions : List Position) (made : Bool) →
        later ++ Confirm i positions made ∷ earlier ≡ h → made ≡ true }
{
    one_command();
}

/// Where nothing failed and nothing was refused, each notice of a run that ended well says Delivered.
pub fn faultless_notices<P: Port>()
    ensures { (words : List ByteString) (environment : List Variable) (names : List ByteString)
        (configs : List Config) (before now was is : ℕ) (h : Record) (ports : List (Numbered P)) →
        HasEndedWell P.observed words environment names configs before now was is h ports →
        (later earlier : Record) (b : ℕ) (status : BatchStatus) →
        later ++ Notice b status ∷ earlier ≡ h → status ≡ Delivered }
{
    one_command();
}
