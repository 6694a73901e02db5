ghost use Rattle.std.specs.Prelude.{◌≡◌, ℕ, List, Some};
ghost use Rattle.gateway_script.specs.Forms.{statement_of};
ghost use Rattle.gateway_script.specs.Grammar.{SpellsLine};
ghost use Rattle.gateway_script.specs.declared.statement.Statement.{Statement};

/// A law of the definitions alone: a line says what the grammar of lines spells by it, and nothing else.
pub fn each_line_says_what_it_spells()
    ensures found { (line : List ℕ) (said : Statement) → statement_of line ≡ Some said → SpellsLine said line }
    ensures only { (line : List ℕ) (said : Statement) → SpellsLine said line → statement_of line ≡ Some said }
{}
