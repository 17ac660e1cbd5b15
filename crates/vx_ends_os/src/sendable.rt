use crate::held_streams::HeldStreams;
use crate::os_clock::OsClock;
use crate::os_port::OsPort;
use crate::os_printer::OsPrinter;
use crate::os_world::OsWorld;

/// An end that a thread may hand to another one. That each of them is one is proved here, where they stand, and not where
/// a thread first hands it on.
pub(crate) trait Sendable: Send {}

/// An end that several threads may look at at a time, as workers do at their clock.
pub(crate) trait Shared: Sync {}

impl Sendable for HeldStreams {}

impl Sendable for OsClock {}

impl Sendable for OsPort {}

impl Sendable for OsPrinter {}

impl Sendable for OsWorld {}

impl Shared for HeldStreams {}

impl Shared for OsClock {}

impl Shared for OsPort {}

impl Shared for OsPrinter {}

impl Shared for OsWorld {}
