//! Laws of session units: each is the contract of a function that does nothing.

ghost use Rattle.std.specs.Prelude.{◌≡◌, ◌≢◌, ◌≤◌, ◌+◌, ◌++◌, ◌⊎◌, ℕ, List, length, Ok};
ghost use Rattle.osi_base.specs.declared.layer_words.Kind.{Kind};
ghost use Rattle.osi_base.specs.declared.session_word.SessionWord.{SessionWord};
ghost use Rattle.osi_base.specs.Octets.{AreOctets};
ghost use Rattle.spdu_codec.specs.Reading.{UnitFault, units_at};
ghost use Rattle.spdu_codec.specs.Wire.{AreUnits};
ghost use Rattle.spdu_codec.specs.Faults.{FirstFault};
ghost use Rattle.spdu_codec.specs.Written.{spelled, parameters_written, units_written, AreFields, AreWritable, octets_in};

/// What is written is spelled so, and is read back as the same words.
pub fn written_is_read()
    ensures spelled { (words : List SessionWord) → AreWritable words
        → AreUnits words (units_written words) }
    ensures read { (words : List SessionWord) → AreWritable words
        → units_at (units_written words) ≡ Ok words }
{}

/// Octets are the units that are read from them, and no others.
pub fn one_reading()
    ensures found { (octets : List ℕ) (words : List SessionWord) → AreOctets octets
        → units_at octets ≡ Ok words → AreUnits words octets }
    ensures only { (octets : List ℕ) (words : List SessionWord) → AreUnits words octets
        → units_at octets ≡ Ok words }
    ensures one { (octets : List ℕ) (words others : List SessionWord) → AreUnits words octets
        → AreUnits others octets → words ≡ others }
{}

/// Octets are units or have a first fault, and not both, and they have one first fault at most.
pub fn units_or_fault()
    ensures either { (octets : List ℕ) → AreOctets octets
        → ((words : List SessionWord) × AreUnits words octets) ⊎ ((f : UnitFault)
        × FirstFault octets f) }
    ensures not_both { (octets : List ℕ) (words : List SessionWord) (f : UnitFault)
        → AreOctets octets → AreUnits words octets → FirstFault octets f → ⊥ }
    ensures one { (octets : List ℕ) (f g : UnitFault) → AreOctets octets → FirstFault octets f
        → FirstFault octets g → f ≡ g }
{}

/// A first fault stands within the octets or right behind them. One of a code, of a value or of
/// what is too much stands whatever follows; a length or a parameter that lacks may still come.
pub fn where_a_fault_stands()
    ensures within { (octets : List ℕ) (f : UnitFault) → FirstFault octets f
        → f.place ≤ length octets }
    ensures stays { (octets more : List ℕ) (f : UnitFault) → f.kind ≢ Kind.Length
        → f.kind ≢ Kind.Missing → FirstFault octets f → FirstFault (octets ++ more) f }
{}

/// The parameters of a unit are at most 80 octets more than those that any octets may fill.
pub fn written_length()
    ensures { (word : SessionWord) → AreFields word
        → length (spelled (parameters_written word)) ≤ 80 + octets_in word }
{}
