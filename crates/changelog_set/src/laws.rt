//! The law of unchanged slots.

ghost use Rattle.std.specs.Prelude.{◌≡◌, ℕ, ◌≤◌, ◌<◌, ◌↔◌, Bool, true, false, List, length};
ghost use Rattle.changelog_set.specs.Sets.{has, entry, unchanged};

/// A slot is unchanged just where no entry from i + 1 to j has it.
pub fn unchanged_slot_by_slot()
    ensures { (sets : List (List Bool)) (i j slot : ℕ) → slot < 512 →
        (has slot (unchanged sets i j) ≡ true) ↔ ((e : ℕ) → i < e → e ≤ j → e ≤ length sets → has slot (entry sets e) ≡ false) }
{}
