//! Worked examples of findings.
ghost use Rattle.std.specs.Prelude.{[], ◌∷◌, true, false, codes};
ghost use Rattle.vm_check.specs.Examples.{config_with, deflating, faulty_commands, five_guests, guest, guest_with, inflating, tuning_commands, HasLines};

/// The findings of small configurations.
pub fn law_examples()
    // A small machine has thresholds of no frame.
    ensures thresholds { HasLines (config_with 20 0 0 1 [] [] [])
        (codes "key \"percent\": soft is 0 of 20 frames" ∷ codes "key \"percent\": hard is 0 of 20 frames" ∷ codes "key \"percent\": low is 0 of 20 frames" ∷ []) }

    // A guest that isn't admitted counts in no sum of those behind it.
    ensures starts { HasLines (config_with 1000 300 25 1 five_guests (true ∷ true ∷ true ∷ true ∷ true ∷ []) [])
        (codes "guest 2: starts at epoch 0: reserves 650 of 300 pages of swap" ∷ codes "guest 4: starts at epoch 0: minimums and overheads 1355 of 1000 frames" ∷ []) }

    // Without an epoch nothing starts.
    ensures never { HasLines (config_with 1000 300 25 0 five_guests (true ∷ true ∷ true ∷ true ∷ true ∷ []) []) [] }

    // A command behind the last epoch starts nobody, and one in front of a minimum's change asks for too little.
    ensures commands { HasLines (config_with 1000 300 0 5 (guest (codes "a") 300 200 ∷ []) (false ∷ []) faulty_commands)
        (codes "guest 0, key \"min\": 200, above the 100 pages of command 0"
        ∷ codes "guest 0, key \"autostart\": never starts"
        ∷ codes "command 1, key \"at\": 5, and the run has 5 epochs"
        ∷ codes "command 2, key \"line\": no such domain"
        ∷ codes "command 3, key \"line\": bad line"
        ∷ codes "command 4, key \"line\": bad size" ∷ []) }

    // Behind it the guest's own minimum is none more.
    ensures tuned { HasLines (config_with 1000 300 0 5 (guest (codes "a") 300 200 ∷ []) (false ∷ []) tuning_commands) [] }

    // A page that is put into the balloon and never taken out stops the trace.
    ensures inflated { HasLines (config_with 1000 300 0 1 (guest_with (codes "a") 10 5 false inflating ∷ []) (true ∷ []) [])
        (codes "guest 0, key \"trace\": 3 steps, and at most 2 run in 1 epochs of 2"
        ∷ codes "guest 0, key \"trace\": step 2 touches page 7, which is inflated and never deflated" ∷ []) }
    ensures deflated { HasLines (config_with 1000 300 0 2 (guest_with (codes "a") 10 5 false deflating ∷ []) (true ∷ []) []) [] }
    ensures own { HasLines (config_with 1000 300 0 2 (guest_with (codes "a") 10 5 true inflating ∷ []) (true ∷ []) []) [] }
{}
