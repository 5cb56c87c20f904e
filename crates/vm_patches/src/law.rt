ghost use Rattle.std.specs.Prelude.{◌≡◌, ◌<◌, ℕ, List, length, slice_index};
ghost use Rattle.vm_patches.specs.declared.patch.ByteWrite.{ByteWrite};
ghost use Rattle.vm_patches.specs.LastByte.{last_byte};
ghost use Rattle.vm_patches.specs.Patches.{patched};

/// After the writes of a patch, each byte of a page is the one that was written last at its offset, and what it was before where
/// none was.
pub fn law_last_byte()
    ensures { (page : List ℕ) (writes : List ByteWrite) (offset : ℕ) → offset < length page
        → slice_index (patched page writes) offset ≡ last_byte writes offset (slice_index page offset) }
{}
