//! How a standby begins with its primary.

use units_core::Name;

/// The name and the key with which a standby greets its primary, and whether it then asks for its last entry again, to compare it.
#[derive(Clone, Copy)]
pub struct Login {
    pub name: Name,
    pub key: Name,
    pub compare: bool,
}
