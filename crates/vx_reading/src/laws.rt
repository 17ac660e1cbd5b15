ghost use Rattle.std.specs.Prelude.{◌≡◌, ◌≤◌, Bool, List, Ok, Err, length};
ghost use Rattle.vx_value.specs.Texts.{ByteString};
ghost use Rattle.vx_value.specs.declared.variable.Variable.{Variable};
ghost use Rattle.vx_plan.specs.First.{first_configuration, first_plan};
ghost use Rattle.vx_plan.specs.declared.plan.Plan.{Plan};
ghost use Rattle.vx_reading.specs.Conditions.{NoneRefusable};
ghost use Rattle.vx_reading.specs.Diagnostics.{IsFirst, AreAlike};
ghost use Rattle.vx_reading.specs.Reading.{IsReading, IsReadingBy};
ghost use Rattle.vx_reading.specs.declared.diagnostic.Diagnostic.{Diagnostic};
ghost use Rattle.vx_reading.specs.declared.plan_fault.PlanFault.{PlanFault};
ghost use Rattle.vx_reading.specs.declared.plan_fault.PlanFault.TheVariants.{WantOfMemory};

/// A text has one answer: what has a plan has no other, and is refused for want of memory alone, where the same conditions are
/// refused, or none could be. Two faults of which none is tried before the other are of one kind, in one part of the document, and at one path.
pub fn one_answer()
    ensures plan { (environment : List Variable) (bytes : ByteString) (p q : Plan) →
        IsReading environment bytes (Ok p) → IsReading environment bytes (Ok q) → p ≡ q }
    ensures apart { (refuses : ByteString → Bool) (environment : List Variable) (bytes : ByteString)
        (plan : Plan) (fault : PlanFault) → IsReadingBy refuses environment bytes (Ok plan) →
        IsReadingBy refuses environment bytes (Err fault) → fault ≡ WantOfMemory }
    ensures sure { (environment : List Variable) (bytes : ByteString) (plan : Plan) (fault : PlanFault) →
        NoneRefusable plan.components → IsReading environment bytes (Ok plan) →
        IsReading environment bytes (Err fault) → fault ≡ WantOfMemory }
    ensures first { (all : List Diagnostic) (f g : Diagnostic) → IsFirst all f → IsFirst all g →
        AreAlike f g }
{}

/// The text of standard input to standard output is read, whatever the environment: it has its plan, and is refused for
/// want of memory alone.
pub fn first_configuration()
    ensures read { (environment : List Variable) →
        IsReading environment first_configuration (Ok first_plan) }
    ensures plan { (environment : List Variable) (plan : Plan) →
        IsReading environment first_configuration (Ok plan) → plan ≡ first_plan }
    ensures taken { (environment : List Variable) (fault : PlanFault) →
        IsReading environment first_configuration (Err fault) → fault ≡ WantOfMemory }
{}

/// A configuration that has a plan has few components: at most 256.
pub fn few_components()
    ensures { (environment : List Variable) (bytes : ByteString) (plan : Plan) →
        IsReading environment bytes (Ok plan) → length plan.components ≤ 256 }
{}
