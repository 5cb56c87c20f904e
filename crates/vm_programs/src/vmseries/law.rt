// Which words are taken, and which ask for a drawing, by examples.
ghost use Rattle.std.specs.Prelude.{◌≡◌, ◌∷◌, [], codes, false, true};
ghost use Rattle.vm_programs.specs.vmseries.CommandLine.{AreTaken, wants_drawing};

/// Worked examples of words that the command line takes, of which some ask for a drawing and some name a FILE, and of words that
/// it refuses.
pub fn law_words()
    ensures none { AreTaken (codes "vmseries" ∷ []) × (wants_drawing (codes "vmseries" ∷ []) ≡ false) }
    ensures svg { AreTaken (codes "vmseries" ∷ codes "--svg" ∷ [])
        × (wants_drawing (codes "vmseries" ∷ codes "--svg" ∷ []) ≡ true) }
    ensures both { AreTaken (codes "vmseries" ∷ codes "--workers=64" ∷ codes "--svg" ∷ [])
        × (wants_drawing (codes "vmseries" ∷ codes "--workers=64" ∷ codes "--svg" ∷ []) ≡ true) }
    ensures workers { AreTaken (codes "vmseries" ∷ codes "--workers" ∷ codes "1" ∷ [])
        × (wants_drawing (codes "vmseries" ∷ codes "--workers" ∷ codes "1" ∷ []) ≡ false) }
    ensures file { AreTaken (codes "vmseries" ∷ codes "a.json" ∷ [])
        × (wants_drawing (codes "vmseries" ∷ codes "a.json" ∷ []) ≡ false) }
    ensures drawn_file { AreTaken (codes "vmseries" ∷ codes "--svg" ∷ codes "a.json" ∷ [])
        × (wants_drawing (codes "vmseries" ∷ codes "--svg" ∷ codes "a.json" ∷ []) ≡ true) }
    ensures two_files { AreTaken (codes "vmseries" ∷ codes "a.json" ∷ codes "b.json" ∷ []) → ⊥ }
    ensures twice { AreTaken (codes "vmseries" ∷ codes "--svg" ∷ codes "--svg" ∷ []) → ⊥ }
    ensures value { AreTaken (codes "vmseries" ∷ codes "--svg=true" ∷ []) → ⊥ }
    ensures more { AreTaken (codes "vmseries" ∷ codes "--workers" ∷ codes "65" ∷ []) → ⊥ }
    ensures help { AreTaken (codes "vmseries" ∷ codes "--help" ∷ []) → ⊥ }
    ensures version { AreTaken (codes "vmseries" ∷ codes "--version" ∷ []) → ⊥ }
{}
