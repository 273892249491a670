//! What a journal keeps of a change.

use metric_desc::Desc;
use metric_names::LabelValue;
use std::sync::Arc;

/// A change of what is scraped, as the journal keeps it: descriptors and label values are shared, so that keeping it copies none.
/// Contracts see it as a `RegistryChange`, which has them as texts (`change_of`).
#[derive(Drop)]
pub(crate) enum NotedChange {
    /// A family was registered.
    Registered(Arc<Desc>),
    /// A child of these label values was made of the family of this number, and this slot counts for it.
    ChildMade {
        family: usize,
        values: Arc<Vec<LabelValue>>,
        slot: usize,
    },
}
