ghost use Rattle.std.specs.Prelude.{◌≡◌, ℕ, List};
ghost use Rattle.port_terms.specs.Tree.{Tree};
ghost use Rattle.script_text.specs.Tokens.{SpellsNumber};
ghost use Rattle.script_text.specs.Texts.{SpellsText};
ghost use Rattle.script_text.specs.Data.{SpellsIoList, SpellsTerm};

/// A law of the definitions alone: a text is the spelling of one value at most.
pub fn each_text_has_one_value()
    ensures number { (text : List ℕ) (m n : ℕ) → SpellsNumber m text → SpellsNumber n text → m ≡ n }
    ensures text { (text v w : List ℕ) → SpellsText v text → SpellsText w text → v ≡ w }
    ensures io_list { (text : List ℕ) (t u : Tree) → SpellsIoList t text → SpellsIoList u text → t ≡ u }
    ensures term { (text : List ℕ) (t u : Tree) → SpellsTerm t text → SpellsTerm u text → t ≡ u }
{}
