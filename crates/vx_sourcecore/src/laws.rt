//! The laws of what a source cuts. A law's function does nothing: what it ensures is proved.

ghost use Rattle.vx_sourcecore.specs.NewLines.{FramedCounted, ObservedNew};
ghost use Rattle.vx_sourcecore.specs.Laws.{FreshAbreast, ComponentStays, ComponentKept, WiringKept, AbreastKept, TurnedKept, AbreastUnder, TurnedUnder, GeneratorTexts, GeneratorFresh, GeneratingKept, MadeKept, NextKept, GeneratingUnder, MadeUnder, NextUnder};

/// What a framer gives at a read is what the record counts.
pub fn lines()
    ensures counted { FramedCounted }
    ensures observed { ObservedNew }
{}

/// A fresh source is abreast of a record in which its instance read nothing. It stays so while others go on, since they leave the
/// component that it runs, and behind each entry that is no read; and so does what it brings back of a turn that isn't told yet. The
/// same is so of a generator.
pub fn source_laws()
    ensures fresh { FreshAbreast }
    ensures component { ComponentStays }
    ensures component_kept { ComponentKept }
    ensures wiring_kept { WiringKept }
    ensures kept { AbreastKept }
    ensures turned_kept { TurnedKept }
    ensures under { AbreastUnder }
    ensures turned_under { TurnedUnder }
    ensures generator_texts { GeneratorTexts }
    ensures generator_fresh { GeneratorFresh }
    ensures generating_kept { GeneratingKept }
    ensures made_kept { MadeKept }
    ensures next_kept { NextKept }
    ensures generating_under { GeneratingUnder }
    ensures made_under { MadeUnder }
    ensures next_under { NextUnder }
{}
