//! The script: its puts, each with what its number draws.
ghost use Rattle.std.specs.Prelude.{◌≡◌, ◌≤◌, ◌++◌, ◌∷◌, ◌+◌, ◌*◌, IfOk, OnOk};
ghost use Rattle.std.specs.Fmt.{decimal};
ghost use Rattle.mq_soak.specs.Words as words;

use crate::lists::{label, name};
use mq_base::{Items, NoMemory, QName};
use mq_history::{Body, PutOptions, ScriptLine, ScriptPart};
use std::alloc::Global;

/// What is drawn behind a number.
fn next(x: u32) -> u32
    ensures { result ≡ words.next x }
{
    ((1_103_515_245 * (x as u64) + 12_345) % 2_147_483_648) as u32
}

/// What decides of a put.
fn upper(x: u32) -> u32
    ensures { result ≡ words.upper x }
{
    x / 65_536
}

/// The options of a put by what its number draws.
fn options_by(r: u32) -> PutOptions
    ensures { result ≡ words.options_by r }
{
    PutOptions {
        sync: true,
        priority: (r % 10) as i32,
        persistence: if r % 2 == 0 { 1 } else { 0 },
        expiry: -1,
        msg_id: [0; 24],
        correl_id: None,
        msg_type: 8,
        reply_to_q: QName::blank(),
        reply_to_q_mgr: QName::blank(),
        format: *b"MQSTR   ",
        feedback: 0,
        appl_identity_data: [b' '; 32],
    }
}

/// A number in decimal.
fn text_of(alloc: Global, k: u32) -> Result<Items<u8>, NoMemory>
    ensures { IfOk result (λ text. text ≡ decimal k) }
{
    let text = format!(in alloc; "{k}")?;
    Ok(Items::from_vec(text.into_bytes()))
}

/// The put of that number.
fn put(alloc: Global, k: u32, r: u32) -> Result<ScriptLine, NoMemory>
    ensures { IfOk result (λ l. l ≡ words.put k r) }
{
    let text = text_of(alloc, k)?;
    Ok(ScriptLine::Mqput1 {
        name: name(b"T"),
        qmgr: name(b"M3"),
        body: Body::Text(text),
        options: options_by(r),
    })
}

/// The put of that number at the end, and MQCMIT behind each twentieth.
fn push_put(alloc: Global, out: &mut Items<ScriptLine>, k: u32, r: u32) -> Result<(), NoMemory>
    ensures { OnOk result (out.new ≡ out.old ++ words.put k r ∷ words.commit_after k) }
{
    let put = put(alloc, k, r)?;
    out.push(put)?;
    if k % 20 == 0 {
        out.push(ScriptLine::Mqcmit)?;
    }
    Ok(())
}

fn lines(alloc: Global, n: u32) -> Result<Items<ScriptLine>, NoMemory>
    requires { n ≤ 1000 }
    ensures { IfOk result (λ ls. ls ≡ words.lines_to n (20 * n)) }
{
    let mut out = Items::new(alloc);
    out.push(ScriptLine::Mqconn(QName::blank()))?;
    let mut x = n;
    for done in 0..20 * n {
        x = next(x);
        push_put(alloc, &mut out, done + 1, upper(x))?;
    }
    Ok(out)
}

/// The script.
pub fn script(alloc: Global, n: u32) -> Result<ScriptPart, NoMemory>
    requires { n ≤ 1000 }
    ensures { IfOk result (λ p. p ≡ words.script n) }
{
    let lines = lines(alloc, n)?;
    Ok(ScriptPart {
        label: label(b"P"),
        manager: 0,
        lines,
    })
}
