//! What stays so in every legal record. A law's function does nothing: what it ensures is proved.

ghost use Rattle.vx_record.specs.Finality.{DryStays, DoneStays, LeasedUnclosed, StaysBare};

/// A dry source stays dry, what was done when it was leased stays done, and what was retired stays bare. So the port of what
/// is leased isn't closed for good.
pub fn final_laws()
    ensures dry { DryStays }
    ensures done { DoneStays }
    ensures unclosed { LeasedUnclosed }
    ensures bare { StaysBare }
{}
