//! Laws over the definitions, as contracts of functions that do nothing.

ghost use Rattle.std.specs.Prelude.{◌≡◌, ◌⊎◌, ℕ, List};
ghost use Rattle.operation_notation.specs.Modules.{ReadsAsModule};
ghost use Rattle.operation_notation.specs.Faults.{Faulty};
ghost use Rattle.notation_tokens.specs.declared.faults.NotationFault.TheVariants as faults;
ghost use Rattle.operation_notation.specs.declared.module.ModuleText.{ModuleText};

/// No text reads as two modules.
pub fn one_reading()
    ensures { (text : List ℕ) (a b : ModuleText) → ReadsAsModule text a → ReadsAsModule text b
        → a ≡ b }
{}

/// A text reads as a module or has a first fault, and never both.
pub fn module_or_fault()
    ensures either { (text : List ℕ) → ((m : ModuleText) × ReadsAsModule text m) ⊎ Faulty text }
    ensures never_both { (text : List ℕ) (m : ModuleText) → ReadsAsModule text m → Faulty text → ⊥ }
{}

/// No text has two first faults: its place and its kind are one.
pub fn one_fault()
    ensures { (text : List ℕ) (f g : Faulty text) → faults.At f.line f.column f.kind
        ≡ faults.At g.line g.column g.kind }
{}
