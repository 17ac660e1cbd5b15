//! An accepted configuration: its components, their settings and who reads whom.
#![tactic(auto)]

mod checkpoint;
mod class;
mod component;
mod compression;
mod console_target;
mod copies;
mod first;
mod global;
mod laws;
mod names;
mod plan;
mod read_from;
mod route;
mod settings;
mod sink_settings;
mod stage;
mod targets;
mod walk;
mod when_full;

pub use class::Class;
pub use component::{Component, ComponentList};
pub use compression::Compression;
pub use console_target::ConsoleTarget;
pub use first::first_plan;
pub use global::Global;
pub use laws::{acknowledged_chains, first_plan_stands, graph_targets};
pub use plan::Plan;
pub use read_from::ReadFrom;
pub use route::{Route, RouteList};
pub use settings::Settings;
pub use sink_settings::SinkSettings;
pub use stage::{Stage, StageList};
pub use vx_codec::{Codec, Decoding};
pub use vx_condition::{DedupeFields, How, PathList, Strategy, StrategyList};
pub use vx_demo::DemoSettings;
pub use when_full::WhenFull;
