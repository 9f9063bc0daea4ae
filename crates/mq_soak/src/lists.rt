//! Names that are known, and lists of a few values.
ghost use Rattle.std.specs.Prelude.{◌≡◌, ◌∷◌, [], IfOk, Ok, Some};
ghost use Rattle.mq_soak.specs.Words as words;

use mq_base::{Items, Label, Name, NoMemory};
use std::alloc::Global;

/// The name that a text is.
pub fn name<const N: usize>(text: &[u8]) -> Name<N>
    requires { words.name_of N text.now ≡ Ok text.now }
    ensures { result ≡ text.now }
{
    match Name::of(text) {
        Ok(name) => name,
        Err(_) => unreachable!(),
    }
}

/// The label that a text is.
pub fn label(text: &[u8]) -> Label
    requires { words.label_of text.now ≡ Some text.now }
    ensures { result ≡ text.now }
{
    match Label::of(text) {
        Some(label) => label,
        None => unreachable!(),
    }
}

/// A list of one value.
pub fn one<T: Drop>(alloc: Global, a: T) -> Result<Items<T>, NoMemory>
    ensures { IfOk result (λ xs. xs ≡ a ∷ []) }
{
    let mut xs = Items::new(alloc);
    xs.push(a)?;
    Ok(xs)
}

/// A list of two values.
pub fn two<T: Drop>(alloc: Global, a: T, b: T) -> Result<Items<T>, NoMemory>
    ensures { IfOk result (λ xs. xs ≡ a ∷ b ∷ []) }
{
    let mut xs = one(alloc, a)?;
    xs.push(b)?;
    Ok(xs)
}

/// A list of three values.
pub fn three<T: Drop>(alloc: Global, a: T, b: T, c: T) -> Result<Items<T>, NoMemory>
    ensures { IfOk result (λ xs. xs ≡ a ∷ b ∷ c ∷ []) }
{
    let mut xs = two(alloc, a, b)?;
    xs.push(c)?;
    Ok(xs)
}
