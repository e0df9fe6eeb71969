//! What holds of all lines. The functions do nothing: their clauses are the laws.

ghost use Rattle.std.specs.Prelude.{◌≡◌, ◌≢◌, ◌<◌, ◌^◌, ℕ, List};
ghost use Rattle.std.specs.List.{AllByRecursion};
ghost use Rattle.per_base.specs.declared.errors.PerError.{PerError};
ghost use Rattle.command_text.specs.Generated.{generated, generated_line};
ghost use Rattle.command_text.specs.Grammar.{IsEvent, IsEventLine, IsLine, Spells, line_of};
ghost use Rattle.command_text.specs.Replies.{HasText};
ghost use Rattle.command_text.specs.declared.calls.Event.{Event};
ghost use Rattle.command_text.specs.declared.lines.Line.{Line};
ghost use Rattle.command_text.specs.declared.replies.Answer.{Answer};

/// An event is spelled by one text alone, and two events, whose parts are in their bounds, by two texts.
pub fn one_event()
    ensures text { (e : Event) (text other : List ℕ) → Spells text (Line.Event e) → Spells other (Line.Event e)
        → text ≡ other }
    ensures event { (e f : Event) → IsEvent e → IsEvent f → line_of e ≡ line_of f → e ≡ f }
{}

/// A text says one thing: nothing, the end, or one event.
pub fn one_line()
    ensures { (text : List ℕ) (line other : Line) → IsLine text line → IsLine text other → line ≡ other }
{}

/// Line `i` that is generated of a number `x` spells an event, and so does each line of the whole input of a number
/// `n`: the first lines, `n` generated ones, the last. All numbers of the sequence are below 2^31, and so is `n`.
pub fn generated_is_spelled()
    ensures line { (x i : ℕ) → x < 2 ^ 31 → IsEventLine (generated_line x i) }
    ensures whole { (n : ℕ) → n < 2 ^ 31 → AllByRecursion IsEventLine (generated n) }
{}

/// Every error has a text but `OutOfMemory`.
pub fn errors_have_texts()
    ensures { (e : PerError) → e ≢ PerError.OutOfMemory → HasText (Answer.Error e) }
{}
