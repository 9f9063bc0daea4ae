//! Options of opens, puts and gets.

ghost use Rattle.std.specs.Prelude.{◌≡◌, ◌≤◌, IfOk};
ghost use Rattle.mq_scn_lines.specs.Words.{texts_of};
ghost use Rattle.mq_scn_lines.specs.Faults.{Reads};
ghost use Rattle.mq_scn_script.specs.Options.{input_of, open_options, number_option, name_option, put_names, put_numbers, field_option, field_or, put_texts, persistence_of, put_options, take_of, room_of, wait_of, want_of, get_options};

use mq_base::QName;
use mq_calls::{Input, Open, Take};
use mq_history::{GetOptions, PutOptions};
use mq_message::Want;
use mq_scn_lines::{
    GET_OPTIONS, Limit, LineFault, LineOption, OPEN_OPTIONS, PUT_OPTIONS, are_options, both,
    field_in, name_or_blank_in, ranged, says, signed_number, value_of,
};
use std::alloc::Global;

fn input_of(words: &[&[u8]]) -> Input
    ensures { result ≡ input_of (texts_of words.now) }
{
    if says(LineOption::Shared, words) {
        Input::Shared
    } else if says(LineOption::Exclusive, words) {
        Input::Exclusive
    } else {
        Input::No
    }
}

/// The options of an open.
pub fn open_options(words: &[&[u8]]) -> Result<Open, LineFault>
    ensures { result ≡ open_options (texts_of words.now) }
{
    if !are_options(&OPEN_OPTIONS, words) {
        return Err(LineFault::Form);
    }
    Ok(Open {
        input: input_of(words),
        browse: says(LineOption::Browse, words),
        output: says(LineOption::Output, words),
    })
}

/// The number that words give to an option.
fn number_option(option: LineOption, default: i32, words: &[&[u8]]) -> Result<i32, LineFault>
    ensures { result ≡ number_option option default (texts_of words.now) }
{
    match value_of(option, words) {
        None => Ok(default),
        Some(text) => signed_number(text),
    }
}

/// The name that words give to an option, or the blank one.
fn name_option(option: LineOption, words: &[&[u8]]) -> Result<QName, LineFault>
    ensures { result ≡ name_option option (texts_of words.now) }
{
    match value_of(option, words) {
        None => Ok(QName::blank()),
        Some(text) => name_or_blank_in(text),
    }
}

/// Where replies go.
#[derive(Clone, Copy)]
pub struct PutNames {
    pub reply_to_q: QName,
    pub reply_to_q_mgr: QName,
}

fn put_names(words: &[&[u8]]) -> Result<PutNames, LineFault>
    ensures { result ≡ put_names (texts_of words.now) }
{
    match both(
        name_option(LineOption::ReplyQ, words),
        name_option(LineOption::ReplyQMgr, words),
    ) {
        Ok((reply_to_q, reply_to_q_mgr)) => Ok(PutNames {
            reply_to_q,
            reply_to_q_mgr,
        }),
        Err(fault) => Err(fault),
    }
}

/// The numbers of a put's options.
#[derive(Clone, Copy)]
pub struct PutNumbers {
    pub priority: i32,
    /// In tenths of a second; -1 for none.
    pub expiry: i32,
    pub msg_type: i32,
    pub feedback: i32,
}

fn put_numbers(words: &[&[u8]]) -> Result<PutNumbers, LineFault>
    ensures { result ≡ put_numbers (texts_of words.now) }
{
    let first = both(
        number_option(LineOption::Priority, -1, words),
        number_option(LineOption::Expiry, -1, words),
    );
    let second = both(
        number_option(LineOption::MsgType, 8, words),
        number_option(LineOption::Feedback, 0, words),
    );
    match both(first, second) {
        Ok(((priority, expiry), (msg_type, feedback))) => Ok(PutNumbers {
            priority,
            expiry,
            msg_type,
            feedback,
        }),
        Err(fault) => Err(fault),
    }
}

/// The field that words give to an option, with that byte behind its text.
fn field_option<const N: usize>(
    alloc: Global,
    option: LineOption,
    pad: u8,
    words: &[&[u8]],
) -> Result<Option<[u8; N]>, LineFault>
    ensures { Reads result (field_option N option pad (texts_of words.now)) }
{
    match value_of(option, words) {
        None => Ok(None),
        Some(text) => match field_in::<N>(alloc, text, pad) {
            Ok(field) => Ok(Some(field)),
            Err(fault) => Err(fault),
        },
    }
}

/// The texts of a put's options.
#[derive(Clone, Copy)]
pub struct PutTexts {
    pub msg_id: Option<[u8; 24]>,
    pub correl_id: Option<[u8; 24]>,
    pub format: Option<[u8; 8]>,
    pub appl_identity_data: Option<[u8; 32]>,
}

fn put_texts(alloc: Global, words: &[&[u8]]) -> Result<PutTexts, LineFault>
    ensures { Reads result (put_texts (texts_of words.now)) }
{
    let msg_id = field_option::<24>(alloc, LineOption::MsgId, 0, words)?;
    let correl_id = field_option::<24>(alloc, LineOption::Correl, 0, words)?;
    let format = field_option::<8>(alloc, LineOption::Format, b' ', words)?;
    let appl_identity_data = field_option::<32>(alloc, LineOption::IdentityData, b' ', words)?;
    Ok(PutTexts {
        msg_id,
        correl_id,
        format,
        appl_identity_data,
    })
}

/// 1 for a persistent message, 0 for one that is not, 2 as the queue's default says.
fn persistence_of(words: &[&[u8]]) -> i32
    ensures { result ≡ persistence_of (texts_of words.now) }
{
    if says(LineOption::Persist, words) {
        1
    } else if says(LineOption::NoPersist, words) {
        0
    } else {
        2
    }
}

fn field_or<const N: usize>(field: Option<[u8; N]>, default: [u8; N]) -> [u8; N]
    ensures { result ≡ field_or field.entry default.entry }
{
    match field {
        Some(field) => field,
        None => default,
    }
}

/// The options of a put.
#[tactic(auto, unfolding(crate::specs::Options::put_options))]
pub fn put_options(alloc: Global, words: &[&[u8]]) -> Result<PutOptions, LineFault>
    ensures { Reads result (put_options (texts_of words.now)) }
{
    if !are_options(&PUT_OPTIONS, words) {
        return Err(LineFault::Form);
    }
    let texts = put_texts(alloc, words)?;
    match both(put_names(words), put_numbers(words)) {
        Err(fault) => Err(fault),
        Ok((names, numbers)) => Ok(PutOptions {
            sync: says(LineOption::Sync, words),
            priority: numbers.priority,
            persistence: persistence_of(words),
            expiry: numbers.expiry,
            msg_id: field_or(texts.msg_id, [0; 24]),
            correl_id: texts.correl_id,
            msg_type: numbers.msg_type,
            reply_to_q: names.reply_to_q,
            reply_to_q_mgr: names.reply_to_q_mgr,
            format: field_or(texts.format, *b"MQSTR   "),
            feedback: numbers.feedback,
            appl_identity_data: field_or(texts.appl_identity_data, [b' '; 32]),
        }),
    }
}

fn take_of(words: &[&[u8]]) -> Take
    ensures { result ≡ take_of (texts_of words.now) }
{
    if says(LineOption::First, words) {
        Take::BrowseFirst
    } else if says(LineOption::Next, words) {
        Take::BrowseNext
    } else if says(LineOption::Cursor, words) {
        Take::BrowseUnder
    } else if says(LineOption::Under, words) {
        Take::UnderCursor
    } else {
        Take::Next
    }
}

/// The room of a get in bytes, 4,194,304 where it gives none.
fn room_of(words: &[&[u8]]) -> Result<u64, LineFault>
    ensures { result ≡ room_of (texts_of words.now) }
{
    match value_of(LineOption::Room, words) {
        None => Ok(4_194_304),
        Some(text) => ranged(text, 0, 2_147_483_647, LineFault::Number),
    }
}

/// The wait of a get in milliseconds.
fn wait_of(words: &[&[u8]]) -> Result<Option<u64>, LineFault>
    ensures { result ≡ wait_of (texts_of words.now) }
{
    match value_of(LineOption::Wait, words) {
        None => Ok(None),
        Some(text) => match ranged(text, 0, 999_999_999, LineFault::Limit(Limit::Clock)) {
            Ok(wait) => Ok(Some(wait)),
            Err(fault) => Err(fault),
        },
    }
}

fn want_of(alloc: Global, words: &[&[u8]]) -> Result<Want, LineFault>
    ensures { Reads result (want_of (texts_of words.now)) }
{
    let msg_id = field_option::<24>(alloc, LineOption::MsgId, 0, words)?;
    let correl_id = field_option::<24>(alloc, LineOption::Correl, 0, words)?;
    Ok(Want { msg_id, correl_id })
}

/// The options of a get.
#[tactic(auto, unfolding(crate::specs::Options::get_options))]
pub fn get_options(alloc: Global, words: &[&[u8]]) -> Result<GetOptions, LineFault>
    ensures { Reads result (get_options (texts_of words.now)) }
{
    if !are_options(&GET_OPTIONS, words) {
        return Err(LineFault::Form);
    }
    let want = want_of(alloc, words)?;
    match both(room_of(words), wait_of(words)) {
        Err(fault) => Err(fault),
        Ok((room, wait)) => Ok(GetOptions {
            sync: says(LineOption::Sync, words),
            take: take_of(words),
            want,
            room,
            truncate: says(LineOption::Truncate, words),
            wait,
        }),
    }
}
