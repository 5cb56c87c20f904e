// Which words are taken, by examples.
ghost use Rattle.std.specs.Prelude.{◌∷◌, [], codes};
ghost use Rattle.vm_programs.specs.vmmem.CommandLine.{AreTaken};

/// Worked examples of words that the command line takes, and of words that it refuses.
pub fn law_words()
    ensures none { AreTaken (codes "vmmem" ∷ []) }
    ensures one { AreTaken (codes "vmmem" ∷ codes "--workers" ∷ codes "1" ∷ []) }
    ensures most { AreTaken (codes "vmmem" ∷ codes "--workers=64" ∷ []) }
    ensures zero { AreTaken (codes "vmmem" ∷ codes "--workers" ∷ codes "0" ∷ []) → ⊥ }
    ensures more { AreTaken (codes "vmmem" ∷ codes "--workers" ∷ codes "65" ∷ []) → ⊥ }
    ensures missing { AreTaken (codes "vmmem" ∷ codes "--workers" ∷ []) → ⊥ }
    ensures help { AreTaken (codes "vmmem" ∷ codes "--help" ∷ []) → ⊥ }
    ensures other { AreTaken (codes "vmmem" ∷ codes "x" ∷ []) → ⊥ }
    ensures version { AreTaken (codes "vmmem" ∷ codes "--version" ∷ []) → ⊥ }
{}
