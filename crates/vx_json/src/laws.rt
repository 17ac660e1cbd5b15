//! The laws of what lines give. A law's function does nothing: what it ensures is proved.

ghost use Rattle.vx_json.specs.LineLaws.{ObjectIsEvent, ContentAgrees, EventAgrees, UndecodableGivesNothing, UndecodableHasNoEvent};

/// Bytes are an object, as a function of them, exactly where they are an event.
pub fn one_object()
    ensures { ObjectIsEvent }
{}

/// What a line gives, as a function of it, is what the relations say, and a line is undecodable where that is nothing.
pub fn line_events()
    ensures content { ContentAgrees }
    ensures event { EventAgrees }
    ensures undecodable { UndecodableGivesNothing }
    ensures no_event { UndecodableHasNoEvent }
{}
