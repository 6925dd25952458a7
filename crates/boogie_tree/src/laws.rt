ghost use Rattle.std.specs.Prelude.{◌≡◌, List};
ghost use Rattle.boogie_tree.specs.Tree.{Declaration};
ghost use Rattle.boogie_tree.specs.Apart.{AreAlike};
ghost use Rattle.boogie_tree.specs.Printing.{program_text};

/// Programs that are equal apart from places have one text.
pub fn alike_programs_have_one_text()
    ensures { (p q : List Declaration) → AreAlike p q → program_text p ≡ program_text q }
{}
