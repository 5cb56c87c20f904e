//! What follows from the definitions.
ghost use Rattle.std.specs.Prelude.{◌≡◌, ◌+◌, ◌*◌, ◌%◌, ◌^◌, ◌<◌, ◌≤◌, ◌↔◌, ℕ, List, [], ◌∷◌, None, Some, Ok, codes, length, slice_get};
ghost use Rattle.std.specs.Int.{div_ceil};
ghost use Rattle.serde_json.specs.Data.{array, object, Data, Items, Members};
ghost use Rattle.serde_json.specs.Find.{get};
ghost use Rattle.vm_config.specs.declared.config.Config.{Config};
ghost use Rattle.vm_config.specs.declared.settings.Setting.{Setting};
ghost use Rattle.vm_config.specs.Keys.{list_of};
ghost use Rattle.vm_config.specs.Limits.{IsConfig};
ghost use Rattle.vm_config.specs.Reading.{config_in, config_of};
ghost use Rattle.vm_config.specs.Settings.{with_setting};
ghost use Rattle.vm_variants.specs.declared.error.GuestError.TheVariants.{NoGuest, OutOfRange};
ghost use Rattle.vm_variants.specs.declared.guest_setting.GuestSetting.{GuestSetting};
ghost use Rattle.vm_variants.specs.declared.guest_setting.GuestSetting.TheVariants.{Min};
ghost use Rattle.vm_variants.specs.Changes.{changed, first_refusal, no_change, IsPercent, IsVariation, Replaces, Variation};
ghost use Rattle.vm_variants.specs.Examples.{at, guest_of, own, two_guests};
ghost use Rattle.vm_variants.specs.Texts.{root_with, HasGuestValue, IsTextWith};
ghost use Rattle.vm_variants.specs.Variants.{guest_value, refusal_in, with_guest_value, with_minimums, with_seeds_added, IsAllowed};

/// A value of a guest is refused unless there is such a guest and the value is in its range. One that isn't keeps the limits of a
/// configuration, and stands there from then on; the value that stands there already changes nothing; of two values the later counts.
pub fn law_settings()
    ensures allowed { (setting : GuestSetting) (place value : ℕ) (c : Config)
        → (refusal_in setting place value c ≡ None) ↔ IsAllowed setting place value c }
    ensures limits { (setting : GuestSetting) (place value : ℕ) (c : Config)
        → IsAllowed setting place value c → IsConfig c → IsConfig (with_guest_value setting place value c) }
    ensures stands { (setting : GuestSetting) (place value : ℕ) (c : Config)
        → place < length c.domains → guest_value setting place (with_guest_value setting place value c) ≡ Some value }
    ensures same { (setting : GuestSetting) (place value : ℕ) (c : Config)
        → guest_value setting place c ≡ Some value → with_guest_value setting place value c ≡ c }
    ensures later { (setting : GuestSetting) (place first second : ℕ) (c : Config)
        → with_guest_value setting place second (with_guest_value setting place first c) ≡ with_guest_value setting place second c }
{}

/// A percentage of a size, rounded up, is the least number of pages that is at least so much. As minimums these keep the limits of a
/// configuration.
pub fn law_percent()
    ensures enough { (percent size : ℕ) → percent * size ≤ 100 * div_ceil (percent * size) 100 }
    ensures least { (percent size pages : ℕ) → percent * size ≤ 100 * pages → div_ceil (percent * size) 100 ≤ pages }
    ensures limits { (percent : ℕ) (c : Config) → IsPercent percent → IsConfig c → IsConfig (with_minimums percent c) }
{}

/// To add a number to each seed and then another is to add their sum, modulo 2^64. So the seeds of one run lead to those of another: the
/// number is added by which they differ. What is added keeps the limits of a configuration, and 0 changes nothing.
pub fn law_seeds()
    ensures sum { (first second : ℕ) (c : Config)
        → with_seeds_added second (with_seeds_added first c) ≡ with_seeds_added ((first + second) % 2 ^ 64) c }
    ensures limits { (added : ℕ) (c : Config) → IsConfig c → IsConfig (with_seeds_added added c) }
    ensures none { (c : Config) → IsConfig c → with_seeds_added 0 c ≡ c }
{}

/// All changes of a run keep the limits of a configuration, and no changes leave it as it is. Where a second run changes whatever the
/// first one does, the configuration of the first is as good a beginning as the text's own, but for the seeds, whose numbers add up.
pub fn law_runs()
    ensures limits { (v : Variation) (c : Config)
        → IsVariation v → first_refusal v c ≡ None → IsConfig c → IsConfig (changed v c) }
    ensures none { (c : Config) → IsConfig c → changed no_change c ≡ c }
    ensures next { (first second : Variation) (c : Config) → Replaces first second
        → changed second (changed first c) ≡ changed (record second { added = (first.added + second.added) % 2 ^ 64 }) c }
    ensures refusals { (first second : Variation) (c : Config)
        → first_refusal second (changed first c) ≡ first_refusal second c }
{}

/// A setting of the machine may be given another value before the changes of a run or behind them: it comes to the same, and the same is
/// refused.
pub fn law_machine()
    ensures order { (v : Variation) (setting : Setting) (n : ℕ) (c : Config)
        → changed v (with_setting setting n c) ≡ with_setting setting n (changed v c) }
    ensures refusals { (v : Variation) (setting : Setting) (n : ℕ) (c : Config)
        → first_refusal v (with_setting setting n c) ≡ first_refusal v c }
{}

/// Another value of a guest is what its key of the text would have given: a text, or a root of any version, that has the value there, and
/// all else as a configuration's has it, means that configuration with the value. For each root that has such a guest, an object, there
/// is one with the value.
pub fn law_text()
    ensures roots { (setting : GuestSetting) (version place value : ℕ) (old new : Data) (c : Config)
        → HasGuestValue setting place value old new → config_in version old ≡ Ok c → IsAllowed setting place value c
        → config_in version new ≡ Ok (with_guest_value setting place value c) }
    ensures texts { (setting : GuestSetting) (place value : ℕ) (old new : List ℕ) (c : Config)
        → IsTextWith setting place value old new → config_of old ≡ Ok c → IsAllowed setting place value c
        → config_of new ≡ Ok (with_guest_value setting place value c) }
    ensures some { (setting : GuestSetting) (place value : ℕ) (keys guest : Members) (guests : Items)
        → get (codes "guests") (object keys) ≡ Some (array guests) → slice_get (list_of guests) place ≡ Some (object guest)
        → HasGuestValue setting place value (object keys) (root_with setting place value keys guests) }
{}

/// Worked examples: a percentage, also the whole size and of less than a page; seeds that wrap; all changes of a run, of which two give
/// the shares of one guest; the first refused value, and a guest that isn't there.
pub fn law_examples()
    ensures percent { with_minimums 25 own ≡ two_guests (guest_of 10 3 1000 5) (guest_of 7 2 500 18446744073709551615) }
    ensures whole { with_minimums 100 own ≡ two_guests (guest_of 10 10 1000 5) (guest_of 7 7 500 18446744073709551615) }
    ensures least { with_minimums 1 own ≡ two_guests (guest_of 10 1 1000 5) (guest_of 7 1 500 18446744073709551615) }
    ensures seeds { with_seeds_added 3 own ≡ two_guests (guest_of 10 4 1000 8) (guest_of 7 1 500 2) }
    ensures all { changed (record { percent = Some 25; minimums = at 1 5 ∷ []; shares = at 0 250 ∷ at 0 750 ∷ []; added = 3 }) own
        ≡ two_guests (guest_of 10 3 750 8) (guest_of 7 5 500 2) }
    ensures refused { first_refusal (record { percent = None; minimums = at 0 10 ∷ at 1 8 ∷ []; shares = at 2 1 ∷ []; added = 0 }) own
        ≡ Some (OutOfRange Min 1 1 7) }
    ensures absent { first_refusal (record { percent = None; minimums = []; shares = at 1 1000000 ∷ at 2 1 ∷ []; added = 0 }) own
        ≡ Some (NoGuest 2) }
{}
