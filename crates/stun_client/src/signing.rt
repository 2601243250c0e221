//! Signs a request with the credentials of a client (RFC 8489, sections 9.1.2 and 9.2.5).
ghost use Rattle.std.specs.Option.{IfSome, option_copied};
ghost use Rattle.std.specs.Prelude.{◌≡◌, ◌≤◌, ⊤, IfOk, length};
ghost use Rattle.stun_judging.specs.Additions.{UnlessMemory, WantsMemory, added_all, page_in};
ghost use Rattle.stun_judging.specs.Additions.{written_page};
ghost use Rattle.stun_judging.specs.Outcome.{IsOutcome};
ghost use Rattle.stun_judging.specs.Reading.{reading_of};
ghost use Rattle.stun_judging.specs.Signed.{IsUnsigned};
ghost use Rattle.stun_client.specs.Downgrade.{IsNowhereBidDown};
ghost use Rattle.stun_client.specs.Judging.{identity_of};
ghost use Rattle.stun_client.specs.Signing.{additions_of, challenge_for};
ghost use Rattle.stun_client.specs.code.Signing.{short_term_additions};

use crate::challenge::Challenge;
use crate::credentials::{Credentials, ShortTerm};
use std::alloc::Allocator;
use stun_judging::addition::{AddedAttribute, add, add_integrity};
use stun_types::message::StunWriteError;
use stun_types::prelude::*;

impl<A: Allocator> ShortTerm<A> {
    /// Adds USERNAME and the integrity attribute.
    fn add_all<W: MessageWrite>(&self, writer: &mut W) -> Result<(), StunWriteError>
        requires { 20 ≤ length (W.bytes writer.old) }
        ensures outcome { IsOutcome (short_term_additions self.now)
            (page_in W.bytes W.room writer.old) (W.reserved writer.old) result
            (page_in W.bytes W.room writer.new) }
        ensures granted { W.grants → UnlessMemory result ⊤ ⊥ }
    {
        add(writer, AddedAttribute::Username(self.name.as_str()))?;
        add_integrity(writer, &self.password, self.algorithm)
    }

    /// Adds USERNAME and the integrity attribute to a message, and returns the writer.
    fn sign<W: MessageWrite>(&self, writer: W) -> Result<W, StunWriteError>
        requires { 20 ≤ length (W.bytes writer) }
        ensures outcome { UnlessMemory result (written_page W.bytes W.room result
            ≡ added_all (short_term_additions self.now) (page_in W.bytes W.room writer))
            (WantsMemory (short_term_additions self.now) (page_in W.bytes W.room writer)
            (W.reserved writer)) }
        ensures granted { W.grants → UnlessMemory result ⊤ ⊥ }
    {
        let mut writer = writer;
        self.add_all(&mut writer)?;
        Ok(writer)
    }
}

impl<A: Allocator> Credentials<A> {
    /// Signs a request: with short-term credentials it adds USERNAME and the integrity attribute,
    /// and with long-term credentials it signs the request for this challenge (see
    /// `Challenge::sign`). Without credentials, or without a challenge, it adds nothing.
    ///
    /// Add FINGERPRINT after this call, because it has to be the last attribute, and the call does
    /// not check whether the request has one already. Fails with the errors of `Challenge::sign`,
    /// and then drops the writer.
    pub fn sign<W: MessageWrite>(
        &self,
        signed_for: Option<&Challenge<A>>,
        request: W,
    ) -> Result<W, StunWriteError>
        requires { 20 ≤ length (W.bytes request) }
        ensures signed { UnlessMemory result (written_page W.bytes W.room result
            ≡ added_all (additions_of (identity_of self.now) (option_copied signed_for.entry))
            (page_in W.bytes W.room request))
            (WantsMemory (additions_of (identity_of self.now) (option_copied signed_for.entry))
            (page_in W.bytes W.room request) (W.reserved request)) }
        ensures granted { W.grants → UnlessMemory result ⊤ ⊥ }
        ensures not_bid_down { IfOk result (λ signed. IsUnsigned (W.bytes request)
            → IfSome (challenge_for (identity_of self.now) (option_copied signed_for.entry))
            (λ c. IsNowhereBidDown c.preferences (reading_of (W.bytes signed)))) }
    {
        match self {
            Credentials::Unsigned => Ok(request),
            Credentials::ShortTerm(short) => short.sign(request),
            Credentials::LongTerm(_) => match signed_for {
                Some(challenge) => challenge.sign(request),
                None => Ok(request),
            },
        }
    }
}
