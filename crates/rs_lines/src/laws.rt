ghost use Rattle.std.specs.Prelude.{◌≡◌, ◌++◌, List, fold};
ghost use Rattle.rs_lines.specs.Lines.{has_error, in_order, note, told};
ghost use Rattle.rs_lines.specs.declared.line.Line as line;

/// What is told of lines in any order is these lines in order, each once, and whether one of them is an error's; more
/// lines are told of one by one.
pub fn lines_are_told()
    ensures lines { (ls : List line.Line) → (told ls).lines ≡ in_order ls }
    ensures errors { (ls : List line.Line) → (told ls).errors ≡ has_error ls }
    ensures more { (ls later : List line.Line) → told (ls ++ later) ≡ fold note (told ls) later }
{}
