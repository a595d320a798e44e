// The text of a tree, from its postfix opcodes.
ghost use Rattle.std.specs.Prelude.{◌≡◌, ◌<◌, ◌≤◌, ◌++◌, ◌∷◌, [], List, ℕ, length, OnOk, IfOk, Some, codes};
ghost use Rattle.depex_code.specs.{Tree.DepexTree, TreeCode.built};
ghost use Rattle.asm_text.specs.{ExpressionText.bracketed, ExpressionText.tree_text, Texts.texts_of};

use depex_code::{Opcode, Tree};
use pi_base::{OutOfMemory, Seq};
use std::alloc::Global;

// The texts one after the other.
pub(crate) fn joined(alloc: Global, front: &[u8], text: &[u8]) -> Result<Seq<u8>, OutOfMemory>
    ensures { IfOk result (λ whole. whole ≡ front.now ++ text.now) }
{
    let mut whole = Seq::new(alloc);
    whole.append(front)?;
    whole.append(text)?;
    Ok(whole)
}

// Takes the last text off.
fn last_text(texts: &mut Seq<Seq<u8>>) -> Seq<u8>
    requires { 0 < length texts.old }
    ensures { texts.old ≡ texts.new ++ result ∷ [] }
{
    texts.pop().unwrap()
}

// Puts a text on top.
fn put_text(alloc: Global, texts: &mut Seq<Seq<u8>>, text: &[u8]) -> Result<(), OutOfMemory>
    ensures { OnOk result (texts.new ≡ texts.old ++ text.now ∷ []) }
{
    texts.push(joined(alloc, text, &[])?)
}

// Puts `not` before the last text.
fn negate(alloc: Global, texts: &mut Seq<Seq<u8>>) -> Result<(), OutOfMemory>
    requires { 0 < length texts.old }
    ensures { (rest : List (List ℕ)) (node : List ℕ) → texts.old ≡ rest ++ node ∷ []
        → OnOk result (texts.new ≡ rest ++ (codes "not " ++ node) ∷ []) }
{
    let node = last_text(texts);
    texts.push(joined(alloc, b"not ", node.as_slice())?)
}

// Puts the last two texts into brackets, with a word between.
fn bracket(alloc: Global, texts: &mut Seq<Seq<u8>>, between: &[u8]) -> Result<(), OutOfMemory>
    requires { 2 ≤ length texts.old }
    ensures { (rest : List (List ℕ)) (first second : List ℕ) → texts.old ≡ (rest ++ first ∷ []) ++ second ∷ [] →
        OnOk result (texts.new ≡ rest ++ bracketed first between.now second ∷ []) }
{
    let second = last_text(texts);
    let first = last_text(texts);
    let mut whole = joined(alloc, b"(", first.as_slice())?;
    whole.append(between)?;
    whole.append(second.as_slice())?;
    whole.append(b")")?;
    texts.push(whole)
}

// The texts after an opcode, if they are those of a stack of trees.
fn put_opcode(alloc: Global, texts: &mut Seq<Seq<u8>>, opcode: &Opcode) -> Result<(), OutOfMemory>
    requires { (stack next : List DepexTree) × (texts.old ≡ texts_of stack) × (built opcode.now stack ≡ Some next) }
    ensures { (stack next : List DepexTree) → texts.old ≡ texts_of stack → built opcode.now stack ≡ Some next
        → OnOk result (texts.new ≡ texts_of next) }
{
    match opcode {
        Opcode::True => put_text(alloc, texts, b"true"),
        Opcode::False => put_text(alloc, texts, b"false"),
        Opcode::Push(guid) => put_text(alloc, texts, &guid.to_text()),
        Opcode::Not => negate(alloc, texts),
        Opcode::And => bracket(alloc, texts, b" and "),
        Opcode::Or => bracket(alloc, texts, b" or "),
    }
}

/// The text of a tree.
pub(crate) fn tree_text(alloc: Global, tree: &Tree) -> Result<Seq<u8>, OutOfMemory>
    ensures { IfOk result (λ text. text ≡ tree_text tree.now) }
{
    let mut texts = Seq::new(alloc);
    let code = tree.code();
    for opcode in code {
        put_opcode(alloc, &mut texts, opcode)?;
    }
    Ok(last_text(&mut texts))
}
