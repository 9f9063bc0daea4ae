//! The words with which lines of scripts begin.

ghost use Rattle.std.specs.Prelude.{◌≡◌};
ghost use Rattle.mq_scn_script.specs.Verbs.{verb_word, verb_of};

/// What a line of a script does.
#[derive(Clone, Copy)]
pub enum ScriptVerb {
    Mqconn,
    Mqdisc,
    Mqcmit,
    Mqback,
    Mqopen,
    Mqclose,
    Mqput,
    Mqput1,
    Mqget,
    Mqsc,
    Crash,
    Restart,
    Cut,
}

/// Every verb.
pub const VERBS: [ScriptVerb; 13] = [
    ScriptVerb::Mqconn,
    ScriptVerb::Mqdisc,
    ScriptVerb::Mqcmit,
    ScriptVerb::Mqback,
    ScriptVerb::Mqopen,
    ScriptVerb::Mqclose,
    ScriptVerb::Mqput,
    ScriptVerb::Mqput1,
    ScriptVerb::Mqget,
    ScriptVerb::Mqsc,
    ScriptVerb::Crash,
    ScriptVerb::Restart,
    ScriptVerb::Cut,
];

fn verb_word(verb: ScriptVerb) -> &'static str
    ensures { result.now ≡ verb_word verb }
{
    match verb {
        ScriptVerb::Mqconn => "MQCONN",
        ScriptVerb::Mqdisc => "MQDISC",
        ScriptVerb::Mqcmit => "MQCMIT",
        ScriptVerb::Mqback => "MQBACK",
        ScriptVerb::Mqopen => "MQOPEN",
        ScriptVerb::Mqclose => "MQCLOSE",
        ScriptVerb::Mqput => "MQPUT",
        ScriptVerb::Mqput1 => "MQPUT1",
        ScriptVerb::Mqget => "MQGET",
        ScriptVerb::Mqsc => "MQSC",
        ScriptVerb::Crash => "CRASH",
        ScriptVerb::Restart => "RESTART",
        ScriptVerb::Cut => "CUT",
    }
}

/// The verb that a word is.
#[tactic(auto, unfolding(crate::specs::Verbs::verb_of))]
pub fn verb_of(word: &[u8]) -> Option<ScriptVerb>
    ensures { result ≡ verb_of word.now }
{
    VERBS
        .iter()
        .copied()
        .find(|verb| verb_word(*verb).as_bytes() == word)
}
