// The keys of domstats that are read.
ghost use Rattle.std.specs.Prelude.{◌≡◌, slice_index};
ghost use Rattle.vm_samples.specs.SampleLines.{field_of};

// A number of a domain.
#[derive(Clone, Copy)]
pub(crate) enum Field {
    /// `state.state`
    State,
    /// `balloon.current`
    Current,
    /// `balloon.maximum`
    Maximum,
    /// `balloon.usable`
    Usable,
    /// `balloon.unused`
    Unused,
    /// `balloon.swap_in`
    SwapIn,
}

// The number that a key names, if it is one that is read. Most keys are not, and show it by their first byte.
#[tactic(auto, using(crate::proofs::FieldLemmas::none_named, crate::proofs::FieldLemmas::other_named))]
pub(crate) fn field_of(key: &[u8]) -> Option<Field>
    ensures { result ≡ field_of key.now }
{
    if key.len() < 1 {
        return None;
    }
    let first = key[0];
    if first == b's' {
        return state_of(key);
    }
    if first == b'b' {
        return balloon_of(key);
    }
    None
}

fn state_of(key: &[u8]) -> Option<Field>
    requires { slice_index key.now 0 ≡ 115 }
    ensures { result ≡ field_of key.now }
{
    if key == b"state.state".as_slice() {
        Some(Field::State)
    } else {
        None
    }
}

fn balloon_of(key: &[u8]) -> Option<Field>
    requires { slice_index key.now 0 ≡ 98 }
    ensures { result ≡ field_of key.now }
{
    if key == b"balloon.current".as_slice() {
        Some(Field::Current)
    } else if key == b"balloon.maximum".as_slice() {
        Some(Field::Maximum)
    } else if key == b"balloon.usable".as_slice() {
        Some(Field::Usable)
    } else if key == b"balloon.unused".as_slice() {
        Some(Field::Unused)
    } else if key == b"balloon.swap_in".as_slice() {
        Some(Field::SwapIn)
    } else {
        None
    }
}
