use ch_base::Text;
use ch_history::Cached;

/// A channel and its latest event.
#[derive(Debug, PartialEq, Eq, Drop)]
pub struct LatestEvent {
    pub channel: Text,
    pub cached: Cached,
}
