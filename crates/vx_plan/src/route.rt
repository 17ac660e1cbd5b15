use vx_value::{ItemList, Text};

/// One way of a route: the port's name, and the text of its condition.
#[derive(Drop)]
pub struct Route {
    pub name: Text,
    pub condition: Text,
}

/// The ways of a route, by bytes of the names. A way's port has its place as its number.
pub type RouteList = ItemList<Route>;
