//! How graphs are encoded.

use crate::ids::InstanceId;

/// How a graph is encoded as one component.
#[derive(Clone, Copy, Debug, PartialEq, Eq)]
pub struct EncodeOptions {
    /// Whether the components are defined in the output. Else it imports them, each by its name.
    pub define_components: bool,
    /// The instance whose exports the output exports, where there is one.
    pub export: Option<InstanceId>,
    /// Whether the output is read again, and refused where that fails.
    pub validate: bool,
}
