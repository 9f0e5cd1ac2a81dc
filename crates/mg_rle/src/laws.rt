//! What holds of packed texts, whatever bytes they stand for.

ghost use Rattle.std.specs.Prelude.{◌≡◌, ℕ, List};
ghost use Rattle.mg_rle.specs.Runs.{StandsFor, BreaksAt};

/// A plain text has one packed text, and no more: what is packed again after unpacking is what was
/// unpacked.
pub fn one_packed_text()
    ensures some { (plain : List ℕ) → (packed : List ℕ) × StandsFor packed plain }
    ensures one { (plain first second : List ℕ) → StandsFor first plain → StandsFor second plain
        → first ≡ second }
{}

/// A packed text has one plain text: what is unpacked after packing is what was packed.
pub fn one_plain_text()
    ensures { (packed first second : List ℕ) → StandsFor packed first → StandsFor packed second
        → first ≡ second }
{}

/// A packed text has no run that breaks the rule, and any other text has one place where the first
/// such run begins. So `unpack` has one answer to each text.
pub fn one_verdict()
    ensures accepted { (packed plain : List ℕ) (at : ℕ) → StandsFor packed plain
        → BreaksAt packed at → ⊥ }
    ensures place { (packed : List ℕ) (first second : ℕ) → BreaksAt packed first
        → BreaksAt packed second → first ≡ second }
{}
