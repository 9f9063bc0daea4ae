//! The entry at the beginning that says how the handler works.

ghost use Rattle.std.specs.Prelude.{◌≡◌};
ghost use Rattle.mq_rules_text.specs.Values.{name_or_blank};
ghost use Rattle.mq_rules_text.specs.Entries.{default_control, own_only, set, set_word, settled, control_of};

use crate::fault::Flaw;
use crate::keyword::Keyword;
use crate::pairs::{Pair, all_allowed, distinct};
use crate::values::{name_or_blank, ranged, wait_of};
use mq_base::QName;
use mq_rules::Wait;

/// What the control entry says.
#[derive(Clone, Copy)]
pub struct Control {
    /// INPUTQ; blank for the manager's dead-letter queue.
    pub input_q: QName,
    /// RETRYINT, 1 to 999,999,999 seconds.
    pub retry_interval: u32,
    /// WAIT.
    pub wait: Wait,
}

/// What holds where there is no control entry: the dead-letter queue, tries 60 seconds apart, WAIT(YES).
pub fn default_control() -> Control
    ensures { result ≡ default_control }
{
    Control {
        input_q: QName::blank(),
        retry_interval: 60,
        wait: Wait::Yes,
    }
}

fn own_only(control: Control, own: &QName, value: &[u8]) -> Result<Control, Flaw>
    ensures { result ≡ own_only own.now control (name_or_blank value.now) }
{
    match name_or_blank(value) {
        Ok(name) => {
            if name.is_blank() || name.text() == own.text() {
                Ok(control)
            } else {
                Err(Flaw::Value)
            }
        }
        Err(flaw) => Err(flaw),
    }
}

fn set(control: Control, own: &QName, keyword: Keyword, value: &[u8]) -> Result<Control, Flaw>
    ensures { result ≡ set own.now keyword value.now control }
{
    let mut control = control;
    match keyword {
        Keyword::InputQueue => match name_or_blank(value) {
            Ok(name) => {
                control.input_q = name;
                Ok(control)
            }
            Err(flaw) => Err(flaw),
        },
        Keyword::InputManager => own_only(control, own, value),
        Keyword::RetryInterval => match ranged(value, 1, 999_999_999) {
            Ok(seconds) => {
                control.retry_interval = seconds;
                Ok(control)
            }
            Err(flaw) => Err(flaw),
        },
        Keyword::Wait => match wait_of(value) {
            Ok(wait) => {
                control.wait = wait;
                Ok(control)
            }
            Err(flaw) => Err(flaw),
        },
        Keyword::Text(_)
        | Keyword::Number(_)
        | Keyword::Action
        | Keyword::ForwardQueue
        | Keyword::ForwardManager
        | Keyword::Header
        | Keyword::Retry => Err(Flaw::Keyword),
    }
}

fn set_pair(control: Control, own: &QName, pair: &Pair) -> Result<Control, Flaw>
    ensures { result ≡ set_word own.now pair.now.keyword pair.now.value control }
{
    match pair.keyword {
        Some(keyword) => set(control, own, keyword, pair.value.as_slice()),
        None => Err(Flaw::Keyword),
    }
}

fn settled(own: &QName, pairs: &[Pair]) -> Result<Control, Flaw>
    ensures { result ≡ settled own.now pairs.now default_control }
{
    let mut control = default_control();
    let mut rest = pairs;
    'reading: while let [pair, further @ ..] = rest {
        match set_pair(control, own, pair) {
            Ok(next) => control = next,
            Err(flaw) => return Err(flaw),
        }
        rest = further;
    }
    Ok(control)
}

/// What the control entry of the handler of a manager of that name says.
///
/// # Errors
///
/// `Keyword` or `Value`, the first that applies.
#[tactic(auto, unfolding(crate::specs::Entries::control_of))]
pub fn control_of(own: &QName, pairs: &[Pair]) -> Result<Control, Flaw>
    ensures { result ≡ control_of own.now pairs.now }
{
    if !all_allowed(true, pairs) || !distinct(pairs) {
        return Err(Flaw::Keyword);
    }
    settled(own, pairs)
}
