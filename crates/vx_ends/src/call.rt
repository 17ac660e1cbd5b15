use crate::port_spec::PortSpec;
use vx_value::Text;

/// What a world was asked for. A world that tells its calls tells them so.
#[derive(Drop)]
pub enum Call {
    /// The text of the configuration at a path.
    Config { path: Text },
    /// A port of that form.
    Port { spec: PortSpec },
}
