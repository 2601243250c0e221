//! The setting that says whether user names are sent as a hash.
ghost use Rattle.std.specs.Prelude.{◌≡◌};

/// Whether user names are sent as a hash (USERHASH; RFC 8489, sections 9.2 and 14.4).
#[derive(Clone, Copy, Debug, Default, PartialEq, Eq, Hash)]
pub enum Feature {
    /// User names are sent as a hash if the peer supports hashes too.
    #[default]
    Auto,
    /// User names are always sent as a hash. A client refuses a challenge whose nonce does not
    /// allow hashes. A server treats this value like `Auto`.
    Required,
    /// User names are never sent as a hash.
    Disabled,
}

impl Feature {
    ghost use Rattle.stun_judging.specs.Feature.{is_required, is_possible};

    /// Returns `true` unless the feature is `Disabled`: user names may be sent as a hash.
    pub fn is_possible(self) -> bool
        ensures { result ≡ is_possible self }
    {
        match self {
            Feature::Auto | Feature::Required => true,
            Feature::Disabled => false,
        }
    }

    /// Returns `true` if the feature is `Required`: a client must send its user name as a hash.
    pub fn is_required(self) -> bool
        ensures { result ≡ is_required self }
    {
        match self {
            Feature::Required => true,
            Feature::Auto | Feature::Disabled => false,
        }
    }
}
