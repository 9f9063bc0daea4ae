//! Objects that nothing uses.
ghost use Rattle.mq_sc_apply.specs.Uses.{nothing_used};

use mq_base::{ChName, QName};
use mq_sc_apply::InUse;

/// A manager whose objects nothing uses: what a command that was accepted makes is asked of it.
#[derive(Clone, Copy)]
pub struct NoUse;

impl InUse for NoUse {
    ghost facts = { λ _. nothing_used };

    fn on_path(&self, _name: &QName) -> bool {
        false
    }

    fn defxmitq_on_path(&self) -> bool {
        false
    }

    fn sending(&self, _name: &QName) -> bool {
        false
    }

    fn channel_busy(&self, _name: &ChName) -> bool {
        false
    }

    fn has_rows(&self, _name: &QName) -> bool {
        false
    }

    fn depth(&self, _name: &QName) -> u64 {
        0
    }

    fn trigger_off(&self, _name: &QName) -> bool {
        false
    }
}
