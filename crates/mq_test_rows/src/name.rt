//! mq_base: names of queues and channels, and labels.

use mq_base::{ChName, Label, NameFault, QName};
use std::test::*;

/// Texts, with why they are no name of a queue.
const QUEUES: [(&[u8], Option<NameFault>); 8] = [
    (b"Q", None),
    (b"orders/EU_1.%", None),
    (b"ABCDEFGHIJKLMNOPQRSTUVWXYZ0123456789.abcdefghijk", None),
    (
        b"ABCDEFGHIJKLMNOPQRSTUVWXYZ0123456789.abcdefghijkl",
        Some(NameFault::TooLong),
    ),
    (b"", Some(NameFault::Empty)),
    (b"A B", Some(NameFault::BadByte(1))),
    (b"-Q", Some(NameFault::BadByte(0))),
    (b"Q\xc4", Some(NameFault::BadByte(1))),
];

#[test]
fn a_name_has_1_to_48_bytes_of_its_alphabet(rt: HostRuntime) {
    for (text, wanted) in &QUEUES {
        let fault = QName::of(text).err();
        assert_eq!(rt; fault, *wanted, "{text:?}");
    }
}

#[test]
fn a_name_stands_in_its_field_with_blanks_behind(rt: HostRuntime) -> Result<(), Fail> {
    let bytes = *QName::of(b"Q1")?.bytes();
    assert!(rt; bytes == *b"Q1                                              ");
    let bytes = *ChName::of(b"LON.PAR")?.bytes();
    assert!(rt; bytes == *b"LON.PAR             ");
    Ok(())
}

#[test]
fn names_are_compared_by_their_texts(rt: HostRuntime) -> Result<(), Fail> {
    let name = QName::of(b"Q1")?;
    assert!(rt; name == QName::of(b"Q1")? && name != QName::blank());
    assert!(rt; QName::blank().is_blank() && !name.is_blank());
    assert!(rt; ChName::blank().is_blank());
    Ok(())
}

#[test]
fn a_name_is_printed_without_its_blanks(rt: HostRuntime) -> Result<(), Fail> {
    let name = QName::of(b"Q1")?;
    let channel = ChName::of(b"LON.PAR")?;
    let text = format!(in rt.alloc(); "{name} {channel}")?;
    assert_eq!(rt; text.as_str(), "Q1 LON.PAR");
    Ok(())
}

#[test]
fn a_channel_name_has_1_to_20_bytes(rt: HostRuntime) -> Result<(), Fail> {
    let name = ChName::of(b"LONDON.TO.PARIS.2345")?;
    assert_eq!(rt; name.text(), b"LONDON.TO.PARIS.2345".as_slice());
    let fault = ChName::of(b"LONDON.TO.PARIS.23456").err();
    assert_eq!(rt; fault, Some(NameFault::TooLong));
    Ok(())
}

/// Texts, and whether they are labels.
const LABELS: [(&[u8], bool); 6] = [
    (b"A", true),
    (b"BUYER001", true),
    (b"BUYER0012", false),
    (b"", false),
    (b"a", false),
    (b"A.B", false),
];

#[test]
fn a_label_has_1_to_8_letters_and_digits(rt: HostRuntime) {
    for (text, is_label) in &LABELS {
        assert_eq!(rt; Label::of(text).is_some(), *is_label, "{text:?}");
    }
}
