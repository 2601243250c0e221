//! Laws about the servers that the calls for C create. They do nothing when they run.

ghost use Rattle.std.specs.Prelude.{◌≡◌, pos, Option, Some};
ghost use Rattle.stun_c_endpoint.specs.Given.{Given, GivenAlone, MakesOpen, MakesServer};
ghost use Rattle.stun_c_endpoint.specs.Given.{MakesShortTerm};
ghost use Rattle.stun_c_endpoint.specs.SettingLaws.{IsAloneOf, IsServerOf};
ghost use Rattle.stun_c_endpoint.specs.declared.handle.endpoint.Kept.{Kept};
ghost use Rattle.stun_c_endpoint.specs.declared.handle.endpoint.Kept.TheVariants as kind;
ghost use Rattle.stun_endpoint.specs.Responding.{Responding};
ghost use Rattle.stun_endpoint.specs.Settings.{Settings};

/// States that if a call that creates a server returns 0, the handle has a server with the settings
/// that were passed. There is one call for servers with long-term credentials (`realm`), one for
/// servers with short-term credentials (`short_term`), and one for servers without credentials
/// (`open`). The call for long-term credentials creates no server if a secret is one repeated byte,
/// if the previous secret is equal to the secret, if the nonce lifetime is less than 30 seconds or
/// more than 30 days, or if the realm is empty.
pub fn servers_are_made_as_asked_for()
    ensures realm { (g : Given) (now : Option Kept) → MakesServer g (pos 0) now
        → (s : Settings) × (now ≡ Some (kind.Server s)) × IsServerOf g s }
    ensures short_term { (g : GivenAlone) (now : Option Kept) → MakesShortTerm g (pos 0) now
        → (s : Responding) × (now ≡ Some (kind.ShortTerm s)) × IsAloneOf g s }
    ensures open { (g : GivenAlone) (now : Option Kept) → MakesOpen g (pos 0) now
        → (s : Responding) × (now ≡ Some (kind.Open s)) × IsAloneOf g s }
{}
