//! What the rest of a manager tells of the use of its objects.
ghost use Rattle.std.specs.Prelude.{◌≡◌};
ghost use Rattle.mq_sc_apply.specs.Uses.{Uses};

use mq_calls::below::{ChName, QName};

/// What the rest of a manager knows of the use of its objects.
pub trait InUse {
    ghost facts: { Self → Uses };

    /// Whether a live handle's path has the queue of that name.
    fn on_path(&self, name: &QName) -> bool
        ensures { result ≡ (facts self.now).on_path name.now };

    /// Whether a live handle's path has the manager's DEFXMITQ.
    fn defxmitq_on_path(&self) -> bool
        ensures { result ≡ (facts self.now).defxmitq_on_path };

    /// Whether a running sender has the queue open.
    fn sending(&self, name: &QName) -> bool
        ensures { result ≡ (facts self.now).sending name.now };

    /// Whether the channel runs or is in doubt.
    fn channel_busy(&self, name: &ChName) -> bool
        ensures { result ≡ (facts self.now).channel_busy name.now };

    /// Whether the queue has a committed row, free or held, or an uncommitted put.
    fn has_rows(&self, name: &QName) -> bool
        ensures { result ≡ (facts self.now).has_rows name.now };

    /// The queue's CURDEPTH.
    fn depth(&self, name: &QName) -> u64
        ensures { result ≡ (facts self.now).depth name.now };

    /// Whether the queue counts as NOTRIGGER.
    fn trigger_off(&self, name: &QName) -> bool
        ensures { result ≡ (facts self.now).trigger_off name.now };
}
