//! What stays of a run while entries are added. The function does nothing: what it ensures is proved.

ghost use Rattle.vx_hub.specs.Standing.{RunStays};

/// While a run goes on its plan in force and its instances stay.
pub fn engine_laws()
    ensures stays { RunStays }
{}
