//! Laws of written texts. The function does nothing: its clause is the law.
ghost use Rattle.std.specs.List.{Contains};
ghost use Rattle.serde_json.specs.Data.{Data};
ghost use Rattle.serde_json.specs.Written.{compact_text};

/// The compact text of a value holds no LF, so a line's LF stands at its end alone.
pub fn texts_hold_no_line_end()
    ensures { (d : Data) → ¬ Contains (compact_text d) 10 }
{}
