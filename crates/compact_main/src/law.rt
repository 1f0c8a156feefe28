//! What holds of every text, whether the program was run or not. The bodies are empty: each
//! contract is a law.

ghost use Rattle.std.specs.Prelude.{◌≡◌, ◌≤◌, ◌↔◌, ℕ, Bool, true, List, length};
ghost use Rattle.compact_types.specs.declared.places.Places.{Places};
ghost use Rattle.compact_types.specs.declared.plan.Shape.{Shape};
ghost use Rattle.compact_types.specs.Bests.{IsBest};
ghost use Rattle.compact_types.specs.Bests.Objective.{total_length};
ghost use Rattle.compact_types.specs.Refusals.{HasOneAnswer};
ghost use Rattle.drawing_check.specs.Shapes.{IsShapeOf};
ghost use Rattle.bars.specs.Lines.{count_to};
ghost use Rattle.bars.specs.Segments.{IsPair};
ghost use Rattle.cert_text.specs.declared.tree.CertNode.{CertNode};
ghost use Rattle.cert_text.specs.declared.trimming.TheConstants.{MOST_SPLITS};
ghost use Rattle.cert_text.specs.Accepting.{Accepts};
ghost use Rattle.cert_text.specs.Trees.{IsShallow};
ghost use Rattle.compact_main.specs.Commands.{Asks, IsCommandWithinLimits};
ghost use Rattle.compact_main.specs.Drawings.{HoldsDrawing, FirstTextFault};
ghost use Rattle.compact_main.specs.Drawings.{AreBestPlaces, IsAccepted};
ghost use Rattle.compact_main.specs.Intakes.{limit_of};
ghost use Rattle.compact_main.specs.Outputs.{Output, IsProved, IsValid, FirstFailure};
ghost use Rattle.compact_main.specs.Outputs.{IsCertified, IsUncertified};
ghost use Rattle.compact_main.specs.Samples.{IsSample};
ghost use Rattle.compact_main.specs.Summaries.{IsCount, IsPairCount, IsSeparatedPair};
ghost use Rattle.compact_main.specs.declared.command.Command.{Command};
ghost use Rattle.compact_main.specs.declared.command.Command.TheVariants.{Draw};
ghost use Rattle.compact_main.specs.declared.command.Form.TheVariants.{Plain, Certified};
ghost use Rattle.compact_main.specs.declared.drawing.Drawing.{Drawing};

/// A law: words ask for one command at most.
pub fn words_ask_for_one_command()
    ensures { (words : List (List ℕ)) (a b : Command) → Asks words a → Asks words b → a ≡ b }
{}

/// A law: every text holds exactly one drawing or has exactly one first fault, and never both.
pub fn texts_have_one_answer()
    ensures { (text : List ℕ) → HasOneAnswer (HoldsDrawing text) (FirstTextFault text) }
{}

/// A law: a text that a command accepts has no first fault, and any other has exactly one: it is
/// refused, or, if it was to be verified, not proved.
pub fn texts_are_accepted_or_refused()
    ensures { (command : Command) (text : List ℕ) →
        HasOneAnswer (λ (accepted : Unit {0}). IsValid command text) (FirstFailure command text) }
{}

/// A law: a text for which a command has an output is one that it accepts; and each text that it
/// accepts has an output, if no certificate is to be made for it. That a best drawing has a
/// certificate is shown by the search, which makes one if memory allows.
pub fn accepted_texts_have_an_output()
    ensures accepted { (command : Command) (text written : List ℕ) →
        Output command text written → IsValid command text }
    ensures output { (command : Command) (text : List ℕ) → IsUncertified command →
        IsValid command text → (written : List ℕ) × Output command text written }
{}

/// A law: what each command writes is a function of the text; of a drawing with its certificate the
/// drawing is, which is what is written without a certificate.
pub fn outputs_are_functions_of_the_text()
    ensures drawn { (pitch : ℕ) (text a b : List ℕ) →
        Output (Draw pitch Plain) text a → Output (Draw pitch Plain) text b → a ≡ b }
    ensures certified { (pitch : ℕ) (text a : List ℕ) → Output (Draw pitch Certified) text a →
        (front : List ℕ) × Output (Draw pitch Plain) text front
        × ((nodes : List CertNode) × IsCertified pitch front nodes a) }
    ensures counted { (text a b : List ℕ) →
        Output Command.Check text a → Output Command.Check text b → a ≡ b }
    ensures measured { (text a b : List ℕ) →
        Output Command.Measure text a → Output Command.Measure text b → a ≡ b }
    ensures verified { (text a b : List ℕ) →
        Output Command.Verify text a → Output Command.Verify text b → a ≡ b }
    ensures sampled { (number : ℕ) (text a b : List ℕ) →
        Output (Command.Sample number) text a → Output (Command.Sample number) text b → a ≡ b }
{}

/// A law: the text of a drawing with its certificate is proved, if it has no more bytes than a text
/// that is verified may have.
pub fn what_draw_writes_is_proved()
    ensures { (pitch : ℕ) (text written : List ℕ) → IsCommandWithinLimits (Draw pitch Certified) →
        Output (Draw pitch Certified) text written → length written ≤ limit_of Command.Verify →
        IsValid Command.Verify written }
{}

/// A law: a drawing that is proved is the best one of its shape. Whoever has the text needs nothing
/// else to see that.
pub fn proved_drawings_are_best()
    ensures { (text : List ℕ) (drawing : Drawing) (places : Places) →
        IsProved text drawing places → AreBestPlaces drawing places }
{}

/// A law: what is written with a certificate shows by itself that it is the best: the certificate
/// is accepted for the places, and no entry of it lies under too many splits. That is all that it
/// takes of a drawing that a text holds, and of the sample of a number.
pub fn certificates_show_the_best()
    ensures drawn { (text : List ℕ) (drawing : Drawing) (places : Places) (nodes : List CertNode) →
        HoldsDrawing text drawing → IsAccepted drawing places nodes →
        IsShallow MOST_SPLITS nodes → AreBestPlaces drawing places }
    ensures sampled { (number : ℕ) (shape : Shape) (places best : Places) (nodes : List CertNode) →
        IsCommandWithinLimits (Command.Sample number) → IsSample number shape.plan places →
        IsShapeOf shape.plan places shape → Accepts shape best nodes →
        IsShallow MOST_SPLITS nodes → IsBest total_length shape best }
{}

/// A law: a count is one number. Of the numbers below n that pass a test it is the one found by
/// going over them; of the pairs of segments, and of those that the shape keeps apart, there is at
/// most one.
pub fn counts_are_exact()
    ensures tested { (test : ℕ → Bool) (n k : ℕ) →
        IsCount (λ i. test i ≡ true) n k ↔ (k ≡ count_to test n) }
    ensures pairs { (shape : Shape) (n a b : ℕ) →
        IsPairCount (IsPair shape) n a → IsPairCount (IsPair shape) n b → a ≡ b }
    ensures separated { (shape : Shape) (n a b : ℕ) →
        IsPairCount (IsSeparatedPair shape) n a → IsPairCount (IsSeparatedPair shape) n b →
        a ≡ b }
{}
