// Laws of the lines of a file. The function does nothing: its clauses are the laws.
ghost use Rattle.std.specs.Prelude.{◌≡◌, ℕ, ◌<◌, List, ◌∷◌, ◌++◌, length, drop};
ghost use Rattle.std.specs.List.{Contains};
ghost use Rattle.slice_io.specs.Lines.{lines_of, rest_from, first_line, after_line};

/// The lines of a file are its first line and then those of what stands after it; a line that holds
/// no LF and then an LF are put before the lines of the rest; and what is left of a file after
/// some of its lines has the lines that are left.
pub fn lines_follow_one_another()
    ensures next { (file : List ℕ) → 0 < length file → lines_of file ≡ first_line file ∷ lines_of (after_line file) }
    ensures joined { (line rest : List ℕ) → ¬ Contains line 10 → lines_of (line ++ 10 ∷ rest) ≡ line ∷ lines_of rest }
    ensures numbered { (i : ℕ) (file : List ℕ) → lines_of (rest_from i file) ≡ drop i (lines_of file) }
{}
