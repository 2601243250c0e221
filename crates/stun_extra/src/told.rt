//! The set of the attribute types that an iterator has already returned.
ghost use Rattle.std.specs.Prelude.{◌≡◌, ◌<◌, ◌^◌, ℕ, ◌==◌, ◌||◌, false};
ghost use Rattle.stun_extra.specs.code.Told.{is_set, is_told};

/// The set of the attribute types that an iterator has returned, with a bit for each type below
/// 0x8000. The bits are created when the first type is added, because most messages have no unknown
/// type, and clearing the bits takes longer than searching a message for unknown types.
#[derive(Debug, Drop)]
pub(crate) struct Told {
    words: Option<[u64; 512]>,
}

impl Told {
    /// Creates an empty set.
    pub(crate) fn new() -> Told
        ensures { (kind : ℕ) → is_told result.words kind ≡ false }
    {
        Told { words: None }
    }

    /// Returns `true` if the type is in the set.
    pub(crate) fn has(&self, kind: u16) -> bool
        requires { kind < 2 ^ 15 }
        ensures { result ≡ is_told self.now.words kind }
    {
        match &self.words {
            Some(words) => (words[usize::from(kind / 64)] >> (kind % 64)) & 1 == 1,
            None => false,
        }
    }

    /// Adds a type to the set.
    pub(crate) fn add(&mut self, kind: u16)
        requires { kind < 2 ^ 15 }
        ensures { (other : ℕ) → is_told self.new.words other
            ≡ (is_told self.old.words other || (other == kind)) }
    {
        match &mut self.words {
            Some(words) => set(words, kind),
            None => {
                let mut words = [0; 512];
                set(&mut words, kind);
                self.words = Some(words);
            }
        }
    }
}

/// Sets the bit of a type.
fn set(words: &mut [u64; 512], kind: u16)
    requires { kind < 2 ^ 15 }
    ensures { (other : ℕ) → is_set words.new other ≡ (is_set words.old other || (other == kind)) }
{
    words[usize::from(kind / 64)] |= 1 << (kind % 64);
}
