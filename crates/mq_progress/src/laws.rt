//! What the progress of a script tells of a history.
ghost use Rattle.std.specs.Prelude.{◌≡◌, ◌⊎◌, ℕ, false, true, List, [], ◌∷◌, ◌++◌, Option, Some, slice_get};
ghost use Rattle.mq_history.specs.declared.calls.Actor.TheVariants as actors;
ghost use Rattle.mq_spec_node.specs.Node.{Node};
ghost use Rattle.mq_spec_node.specs.Terms.{Entry, ScriptLine, ScriptPart};
ghost use Rattle.mq_spec_node.specs.Words.{fresh, is_script, is_trigger, next_by};
ghost use Rattle.mq_progress.specs.Course.{Course, Finished, Stands, next_in};

/// A script that has done nothing stands at the beginning. Where it does its next line, and the entry of that line follows, it
/// stands behind it; an entry of another or a trigger turn leaves it where it is.
pub fn progress_is_the_historys()
    ensures begins { (k : ℕ) (p : ScriptPart) (c : Course) → c.memory ≡ fresh → c.done ≡ 0 → Stands k p [] c }
    ensures lines { (k : ℕ) (p : ScriptPart) (es : List Entry) (e : Entry) (l : ScriptLine) (old new : Course) → Stands k p es old → slice_get p.lines old.done ≡ Some l
        → e.actor ≡ actors.Script k → is_trigger e.call ≡ false → Finished l e.reply old new → Stands k p (es ++ e ∷ []) new }
    ensures others { (k : ℕ) (p : ScriptPart) (es : List Entry) (e : Entry) (c : Course) → Stands k p es c → (is_script k e.actor ≡ false) ⊎ (is_trigger e.call ≡ true) → Stands k p (es ++ e ∷ []) c }
{}

/// What comes next of a script that stands so is what the plain node says.
pub fn the_next_line_is_the_historys()
    ensures { (k : ℕ) (p : ScriptPart) (es : List Entry) (c : Course) (n : Node) → Stands k p es c → next_by k p es c.until n ≡ next_in k p c (slice_get p.lines c.done) n }
{}
