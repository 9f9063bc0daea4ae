//! mq_sc_keys: verbs, objects, keywords and their values.

use mq_base::Items;
use mq_objects::Setting;
use mq_sc_keys::{Given, Key, Kind, Noun, Value, Verb, given_of, key_of, object_of, verb_of};
use std::alloc::Global;
use std::test::*;

/// Whether a word is this keyword there, or none.
fn is_key(verb: Verb, kind: Kind, word: &[u8], key: Option<Key>) -> bool {
    match (key_of(verb, kind, word), key) {
        (Some(found), Some(key)) => found == key,
        (None, None) => true,
        _ => false,
    }
}

/// Whether a word behind a verb names this, or nothing.
fn is_noun(verb: Verb, word: &[u8], noun: Option<Noun>) -> bool {
    match (object_of(verb, word), noun) {
        (Some(found), Some(noun)) => found == noun,
        (None, None) => true,
        _ => false,
    }
}

/// The number that a value gives, where it gives one.
fn number_given(alloc: Global, kind: Kind, key: Key, text: &[u8]) -> Option<u32> {
    let Ok(text) = Items::from_slice(alloc, text) else {
        return None;
    };
    let value = Value::Text(text);
    match given_of(alloc, kind, key, &value) {
        Ok(Given::Setting(Setting::MaxDepth(number))) => Some(number),
        Ok(Given::Setting(Setting::TriggerDepth(number))) => Some(number),
        _ => None,
    }
}

/// The flag that a keyword with no brackets gives, where it gives one.
fn trigger_given(alloc: Global, kind: Kind, key: Key, value: &Value) -> Option<bool> {
    match given_of(alloc, kind, key, value) {
        Ok(Given::Setting(Setting::Trigger(trigger))) => Some(trigger),
        _ => None,
    }
}

/// Verbs, words behind them, and what they name.
const NOUNS: [(Verb, &[u8], Option<Noun>); 3] = [
    (Verb::Define, b"CHL", Some(Noun::Channel)),
    (Verb::Define, b"QMGR", None),
    (Verb::Alter, b"QMGR", Some(Noun::Manager)),
];

#[test]
fn words_name_objects_behind_verbs(rt: HostRuntime) {
    assert!(rt; matches!(verb_of(b"DIS"), Some(Verb::Display)));
    assert!(rt; verb_of(b"MAKE").is_none());
    for (row, (verb, word, noun)) in NOUNS.iter().enumerate() {
        assert!(rt; is_noun(*verb, word, *noun), "row {row}");
    }
}

/// Verbs, kinds of objects, words, and the keywords that they are there.
const KEYS: [(Verb, Kind, &[u8], Option<Key>); 5] = [
    (Verb::Define, Kind::Alias, b"TARGQ", Some(Key::TargQ)),
    (Verb::Define, Kind::Local, b"TARGQ", None),
    (Verb::Define, Kind::Sender, b"USEDLQ", None),
    (Verb::Define, Kind::Local, b"FORCE", None),
    (Verb::Alter, Kind::Local, b"FORCE", Some(Key::Force)),
];

#[test]
fn keywords_belong_to_verbs_and_objects(rt: HostRuntime) {
    for (row, (verb, kind, word, key)) in KEYS.iter().enumerate() {
        assert!(rt; is_key(*verb, *kind, word, *key), "row {row}");
    }
}

/// Keywords of a local queue, texts, and the numbers that they give.
const NUMBERS: [(Key, &[u8], Option<u32>); 3] = [
    (Key::MaxDepth, b"999999999", Some(999999999)),
    (Key::MaxDepth, b"1000000000", None),
    (Key::TrigDpth, b"0", None),
];

#[test]
fn numbers_stand_within_their_ranges(rt: HostRuntime) {
    for (row, (key, text, number)) in NUMBERS.iter().enumerate() {
        let given = number_given(rt.alloc(), Kind::Local, *key, text);
        assert_eq!(rt; given, *number, "row {row}");
    }
}

#[test]
fn flags_stand_alone(rt: HostRuntime) {
    let off = trigger_given(rt.alloc(), Kind::Local, Key::NoTrigger, &Value::Absent);
    assert_eq!(rt; off, Some(false));
    let spoiled = trigger_given(rt.alloc(), Kind::Local, Key::NoTrigger, &Value::Malformed);
    assert_eq!(rt; spoiled, None);
}
