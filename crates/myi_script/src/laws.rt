//! Laws over the grammar. Each is the contract of a function that does nothing.
ghost use Rattle.std.specs.Prelude.{◌≡◌, ℕ, Bool, List};
ghost use Rattle.myi_defs.specs.declared.types.Defs.{Defs};
ghost use Rattle.myi_defs.specs.Sound.{IsSound};
ghost use Rattle.myi_script.specs.declared.form.Form.{Form};
ghost use Rattle.myi_script.specs.declared.types.Act.{Act};
ghost use Rattle.myi_script.specs.declared.types.Line.{Line};
ghost use Rattle.myi_script.specs.Values.{IsValue};
ghost use Rattle.myi_script.specs.Grammar.{IsLine};
ghost use Rattle.myi_script.specs.Script.{IsScript};

/// No word is a value with two contents.
pub fn values_say_one_thing()
    ensures { (f : Form) (w v u : List ℕ) → IsValue f w v → IsValue f w u → v ≡ u }
{}

/// No line says two things, and no text does.
pub fn lines_say_one_thing()
    ensures line { (merge : Bool) (d : Defs) (l : List ℕ) (s t : ℕ) (a b : Act) → IsSound d
        → IsLine merge d l s a → IsLine merge d l t b → (s ≡ t) × (a ≡ b) }
    ensures script { (merge : Bool) (d : Defs) (text : List ℕ) (said other : List Line) → IsSound d
        → IsScript merge d text said → IsScript merge d text other → said ≡ other }
{}
