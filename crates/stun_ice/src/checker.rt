//! The connectivity checks of one ICE agent: writing, judging and answering them (RFC 8445,
//! sections 7.2 and 7.3).

ghost use Rattle.std.specs.Fmt.{WritesOnOk, WritesStyledOnOk};
ghost use Rattle.std.specs.List.{list_any};
ghost use Rattle.std.specs.Prelude.{◌≡◌, ◌≤◌, ◌+◌, ◌-◌, ◌==◌, ◌&&◌, ◌⊎◌, Err, IfErr, IfOk, IfSome};
ghost use Rattle.std.specs.Prelude.{IsOk, IsOkUnless, MatchOption, None, OnErr, OnOk, Some, codes, length};
ghost use Rattle.std.specs.Prelude.{option_copied};
ghost use Rattle.std.specs.String.{string_bytes};
ghost use Rattle.stun_base.specs.Keys.{with_colon};
ghost use Rattle.stun_types.specs.Limits.{LENGTH_LIMIT};
ghost use Rattle.stun_types.specs.WriterCalls.{AddsAttribute};
ghost use Rattle.stun_types.specs.Writing.{IsOpen, attribute_refusal, empty_message, with_attribute};
ghost use Rattle.std.specs.Option.{is_some};
ghost use Rattle.stun_extra.specs.AttributeTypes.{USE_CANDIDATE};
ghost use Rattle.stun_ice.specs.Agent.{are_names, are_passwords, build_refusal, can_nominate};
ghost use Rattle.stun_ice.specs.Agent.{check_bytes, check_page, has_colon, is_within, remote_peer};
ghost use Rattle.stun_ice.specs.Agent.{priority_attribute, role_attribute, sent_check};
ghost use Rattle.stun_ice.specs.Agent.{ended_page, ending_refusal, sent_page, side_refusal};
ghost use Rattle.stun_ice.specs.Agent.{username_attribute, with_nomination};
ghost use Rattle.stun_ice.specs.Checks.{sender_in};

mod answering;
pub(crate) mod judging;
pub(crate) mod receiving;
mod responses;

use crate::check::Check;
use crate::parts::{read_peer_name, read_username};
use crate::role::Role;
use std::alloc::{AllocError, Allocator, Global};
use std::fmt;
use std::marker::Model;
use std::net::SocketAddr;
use stun_base::key::IntegrityKey;
use stun_base::memory::Memory;
use stun_base::prepared_key::PreparedKey;
use stun_extra::attribute::{IceControlled, IceControlling, Priority, UseCandidate};
use stun_extra::fingerprint::finish_with_fingerprint;
use stun_types::attribute::{Username, attribute_length};
use stun_types::message::{
    BINDING, IntegrityAlgorithm, Message, MessageWriteVec, StunWriteError, TransactionId,
};
use stun_types::prelude::*;
use thiserror::Error;

/// The number of bytes of a check without USERNAME: its header, PRIORITY, the role, USE-CANDIDATE,
/// MESSAGE-INTEGRITY and FINGERPRINT.
const CHECK_LENGTH: usize = 76;

/// The username fragment and the password of one side, which it sends to the other over signalling
/// (RFC 8445, section 5.3). `Debug` shows neither.
#[derive(Clone, Copy, Drop)]
pub struct Credentials<'a> {
    /// The username fragment: 4 to 256 bytes, without a colon.
    pub name: &'a str,
    /// The password: 22 to 256 bytes.
    pub password: &'a str,
}

/// Why a checker could not be built.
#[derive(Clone, Copy, Debug, PartialEq, Eq, Error)]
pub enum BuildError {
    /// A name has fewer than 4 or more than 256 bytes.
    #[error("a name has fewer than 4 or more than 256 bytes")]
    NameLength,
    /// A name has a colon, which separates the two names in USERNAME.
    #[error("a name has a colon")]
    ColonInName,
    /// A password has fewer than 22 or more than 256 bytes.
    #[error("a password has fewer than 22 or more than 256 bytes")]
    PasswordLength,
    /// An allocation failed.
    #[error("out of memory")]
    OutOfMemory,
}

/// Why a check could not be written.
#[derive(Clone, Copy, Debug, PartialEq, Eq, Error)]
pub enum CheckError {
    /// The credentials of the peer are not known yet.
    #[error("the credentials of the peer are not known yet")]
    NoRemote,
    /// An allocation failed.
    #[error("out of memory")]
    OutOfMemory,
}

/// The parts of the checks to the peer: USERNAME, and the password that signs them.
#[derive(Drop)]
struct Remote<A: Allocator> {
    username: String<A>,
    password: PreparedKey<A>,
}

impl<A: Allocator> Model for Remote<A> {
    ghost use Rattle.std.specs.Prelude.{◌≤◌, length};
    ghost use Rattle.std.specs.String.{string_bytes};
    ghost use Rattle.stun_ice.specs.Agent.{Peer};

    ghost Value = { Peer };

    ghost view = { λ remote. record {
      outgoing = string_bytes remote.username;
      password = remote.password;
    } };

    // USERNAME fits into its attribute.
    ghost invariant = { λ remote. length (string_bytes remote.username) ≤ 513 };
}

/// One agent in a session with one peer: its own credentials, the credentials of the peer once they
/// are known, the tie-breaker, and the role that the agent has now. It writes checks, judges and
/// answers the checks of the peer, and judges the answers to its own checks.
///
/// Candidates, pairs, their order and pacing, and retransmissions are up to you. A response is
/// judged with the check that it answers, so store the check with its pair.
///
/// Contracts: an agent is a record of its whole state. The state contains passwords, so `Debug`
/// shows none of it.
#[derive(Drop)]
pub struct Checker<A: Allocator = Global> {
    alloc: A,
    name: String<A>,
    password: PreparedKey<A>,
    remote: Option<Remote<A>>,
    tie_breaker: u64,
    role: Role,
}

impl<A: Allocator> Model for Checker<A> {
    ghost use Rattle.std.specs.Prelude.{◌≤◌, length};
    ghost use Rattle.std.specs.String.{string_bytes};
    ghost use Rattle.stun_ice.specs.Agent.{Agent};

    ghost Value = { Agent };

    ghost view = { λ checker. record {
      name = string_bytes checker.name;
      password = checker.password;
      peer = checker.remote;
      tie_breaker = checker.tie_breaker;
      role = checker.role;
    } };

    ghost invariant = { λ checker. length (string_bytes checker.name) ≤ 256 };
}

impl<A: Allocator> fmt::Debug for Checker<A> {
    ghost debug_output = { λ _. Some (codes "Checker { .. }") };

    fn fmt<W: fmt::Write>(&self, f: &mut fmt::Formatter<W>) -> fmt::Result
        ensures writes { WritesOnOk W.write_str_gives f.old result
            (codes "Checker { .. }") f.new }

        // The text does not depend on the width, the precision or any other option.
        ensures styled { WritesStyledOnOk W.write_str_gives f.old result
            (codes "Checker { .. }") f.new }
    {
        f.write_str("Checker { .. }")
    }
}

/// Returns whether two texts have at least `least` and at most `most` bytes each.
fn are_within(one: &str, other: &str, least: usize, most: usize) -> bool
    ensures { result ≡ is_within least most one.now && is_within least most other.now }
{
    least <= one.len() && one.len() <= most && least <= other.len() && other.len() <= most
}

/// Returns whether a name has a colon.
fn has_colon(name: &str) -> bool
    ensures { result ≡ has_colon name.now }
{
    name.as_bytes().contains(&b':')
}

/// Returns the reason to refuse the credentials of the two sides, or `None` if the credentials of
/// both are accepted.
fn find_refusal(local: &Credentials<'_>, remote: &Credentials<'_>) -> Option<BuildError>
    ensures { result ≡ build_refusal local.now.name.now remote.now.name.now local.now.password.now
        remote.now.password.now }
{
    if !are_within(local.name, remote.name, 4, 256) {
        return Some(BuildError::NameLength);
    }
    if has_colon(local.name) || has_colon(remote.name) {
        return Some(BuildError::ColonInName);
    }
    if !are_within(local.password, remote.password, 22, 256) {
        return Some(BuildError::PasswordLength);
    }
    None
}

/// Returns the reason to refuse the credentials of one side, or `None` if they are accepted.
fn find_side_refusal(side: &Credentials<'_>) -> Option<BuildError>
    ensures { result ≡ side_refusal side.now.name.now side.now.password.now }
{
    if side.name.len() < 4 || 256 < side.name.len() {
        return Some(BuildError::NameLength);
    }
    if has_colon(side.name) {
        return Some(BuildError::ColonInName);
    }
    if side.password.len() < 22 || 256 < side.password.len() {
        return Some(BuildError::PasswordLength);
    }
    None
}

/// Joins two names with a colon.
fn join_names<A: Memory>(alloc: A, front: &str, back: &str) -> Result<String<A>, AllocError>
    requires { length front.now + length back.now ≤ 512 }
    ensures bytes { IfOk result (λ text. string_bytes text ≡ with_colon front.now back.now) }
    ensures granted { A.grants → IsOk result }
{
    let mut bytes = Vec::new(alloc);
    A::reserve(&mut bytes, front.len() + 1 + back.len())?;
    let mut text = String::from_utf8(bytes).unwrap();
    text.push_str(front)?;
    text.push_str(":")?;
    text.push_str(back)?;
    Ok(text)
}

/// Prepares a password for HMAC-SHA1.
fn prepare_password<A: Memory>(alloc: A, password: &str) -> Result<PreparedKey<A>, AllocError>
    ensures key { IfOk result (λ key. key ≡ password.now) }
    ensures granted { A.grants → IsOk result }
{
    let key = IntegrityKey::from_bytes(alloc, password.as_bytes())?;
    Ok(PreparedKey::new(key, IntegrityAlgorithm::Sha1))
}

impl<A: Memory> Remote<A> {
    /// Prepares the credentials of a peer for the agent `name`.
    fn new(alloc: A, name: &str, remote: &Credentials<'_>) -> Result<Remote<A>, AllocError>
        requires { length name.now + length remote.now.name.now ≤ 512 }
        ensures made { IfOk result (λ made. made ≡ remote_peer name.now remote.now.name.now
            remote.now.password.now) }
        ensures granted { A.grants → IsOk result }
    {
        Ok(Remote {
            username: join_names(alloc, remote.name, name)?,
            password: prepare_password(alloc, remote.password)?,
        })
    }
}

impl<A: Memory> Checker<A> {
    /// Creates an agent from the credentials of both sides, its tie-breaker and the role that it
    /// begins with. The tie-breaker is a random 64-bit number (RFC 8445, section 7.1.3). If the
    /// credentials of the peer are not known yet, call `offer`.
    ///
    /// # Errors
    ///
    /// Fails with the first of these that applies:
    ///
    /// - `NameLength`: a name has fewer than 4 or more than 256 bytes.
    /// - `ColonInName`: a name has a colon.
    /// - `PasswordLength`: a password has fewer than 22 or more than 256 bytes.
    /// - `OutOfMemory`: an allocation failed.
    pub fn new(
        alloc: A,
        local: Credentials<'_>,
        remote: Credentials<'_>,
        tie_breaker: u64,
        role: Role,
    ) -> Result<Checker<A>, BuildError>
        ensures refused { MatchOption (build_refusal local.entry.name.now remote.entry.name.now
            local.entry.password.now remote.entry.password.now)
            (IsOkUnless result BuildError.OutOfMemory) (λ refusal. result ≡ Err refusal) }
        ensures granted { A.grants → build_refusal local.entry.name.now remote.entry.name.now
            local.entry.password.now remote.entry.password.now ≡ None → IsOk result }
        ensures built { IfOk result (λ checker. checker ≡ record {
          name = local.entry.name.now;
          password = local.entry.password.now;
          peer = Some (remote_peer local.entry.name.now remote.entry.name.now
              remote.entry.password.now);
          tie_breaker = tie_breaker;
          role = role;
        }) }
    {
        if let Some(refusal) = find_refusal(&local, &remote) {
            return Err(refusal);
        }
        let Ok(remote) = Remote::new(alloc, local.name, &remote) else {
            return Err(BuildError::OutOfMemory);
        };
        match Checker::build_from(alloc, &local, Some(remote), tie_breaker, role) {
            Ok(checker) => Ok(checker),
            Err(_) => Err(BuildError::OutOfMemory),
        }
    }

    /// Creates an agent that does not know the credentials of its peer yet, because it makes the
    /// offer and the answer has not arrived. The arguments are its own credentials, its tie-breaker
    /// and the role that it begins with. Checks of the peer may arrive before the answer, and must
    /// be answered at once (RFC 8445, section 7.3), so this agent answers them. It can write its
    /// own checks after a call of `set_remote`.
    ///
    /// # Errors
    ///
    /// Fails with the first of these that applies:
    ///
    /// - `NameLength`: the name has fewer than 4 or more than 256 bytes.
    /// - `ColonInName`: the name has a colon.
    /// - `PasswordLength`: the password has fewer than 22 or more than 256 bytes.
    /// - `OutOfMemory`: an allocation failed.
    pub fn offer(
        alloc: A,
        local: Credentials<'_>,
        tie_breaker: u64,
        role: Role,
    ) -> Result<Checker<A>, BuildError>
        ensures refused { MatchOption (side_refusal local.entry.name.now local.entry.password.now)
            (IsOkUnless result BuildError.OutOfMemory) (λ refusal. result ≡ Err refusal) }
        ensures granted { A.grants
            → side_refusal local.entry.name.now local.entry.password.now ≡ None → IsOk result }
        ensures built { IfOk result (λ checker. checker ≡ record {
          name = local.entry.name.now;
          password = local.entry.password.now;
          peer = None;
          tie_breaker = tie_breaker;
          role = role;
        }) }
    {
        if let Some(refusal) = find_side_refusal(&local) {
            return Err(refusal);
        }
        match Checker::build_from(alloc, &local, None, tie_breaker, role) {
            Ok(checker) => Ok(checker),
            Err(_) => Err(BuildError::OutOfMemory),
        }
    }

    /// Creates an agent from credentials that have been checked.
    fn build_from(
        alloc: A,
        local: &Credentials<'_>,
        remote: Option<Remote<A>>,
        tie_breaker: u64,
        role: Role,
    ) -> Result<Checker<A>, AllocError>
        requires { length local.now.name.now ≤ 256 }
        ensures built { IfOk result (λ checker. checker ≡ record {
          name = local.now.name.now;
          password = local.now.password.now;
          peer = remote;
          tie_breaker = tie_breaker;
          role = role;
        }) }
        ensures granted { A.grants → IsOk result }
    {
        Ok(Checker {
            alloc,
            name: A::text(alloc, local.name)?,
            password: prepare_password(alloc, local.password)?,
            remote,
            tie_breaker,
            role,
        })
    }

    /// Sets the credentials of the peer, in place of any that were set before. Answers that are
    /// signed with the former password of the peer are dropped from then on.
    ///
    /// # Errors
    ///
    /// Fails with the first of these that applies. The agent is then unchanged.
    ///
    /// - `NameLength`: the name has fewer than 4 or more than 256 bytes.
    /// - `ColonInName`: the name has a colon.
    /// - `PasswordLength`: the password has fewer than 22 or more than 256 bytes.
    /// - `OutOfMemory`: an allocation failed.
    pub fn set_remote(&mut self, remote: Credentials<'_>) -> Result<(), BuildError>
        ensures refused { MatchOption (side_refusal remote.entry.name.now remote.entry.password.now)
            (IsOkUnless result BuildError.OutOfMemory) (λ refusal. result ≡ Err refusal) }
        ensures granted { A.grants
            → side_refusal remote.entry.name.now remote.entry.password.now ≡ None → IsOk result }
        ensures set { OnOk result (self.new ≡ record self.old {
          peer = Some (remote_peer self.old.name remote.entry.name.now remote.entry.password.now);
        }) }
        ensures err { OnErr result (self.new ≡ self.old) }
    {
        if let Some(refusal) = find_side_refusal(&remote) {
            return Err(refusal);
        }
        match Remote::new(self.alloc, &self.name, &remote) {
            Ok(remote) => {
                self.remote = Some(remote);
                Ok(())
            }
            Err(_) => Err(BuildError::OutOfMemory),
        }
    }

    /// Writes a check. Send it to the address `to`, and retransmit it until its answer arrives (RFC
    /// 8445, section 7.2.4). The transaction ID must be random and new, because otherwise the
    /// answer to one check could end another.
    ///
    /// If the peer learns a new peer-reflexive candidate from this check, the candidate has the
    /// priority `priority` (section 7.1.1). The check nominates its pair if `nominate` is true and
    /// this agent has the controlling role.
    ///
    /// # Errors
    ///
    /// - `NoRemote`: the credentials of the peer, which a check needs for its signature, are not
    ///   known yet.
    /// - `OutOfMemory`: an allocation failed.
    pub fn check(
        &self,
        id: TransactionId,
        to: SocketAddr,
        priority: u32,
        nominate: bool,
    ) -> Result<Check<A>, CheckError>
        ensures refused { MatchOption self.now.peer (result ≡ Err CheckError.NoRemote)
            (λ peer. IsOkUnless result CheckError.OutOfMemory) }
        ensures granted { IfSome self.now.peer (λ peer. A.grants → IsOk result) }
        ensures check { IfSome self.now.peer (λ peer. IfOk result
            (λ check. check ≡ sent_check self.now peer id to priority nominate)) }
    {
        let Some(remote) = &self.remote else {
            return Err(CheckError::NoRemote);
        };
        let nominates = self.can_nominate(nominate);
        match self.write_check(remote, id, priority, nominates) {
            Ok(bytes) => Ok(Check::new(id, to, self.role, nominates, bytes)),
            // There is room for every attribute, so an allocation has failed.
            Err(_) => Err(CheckError::OutOfMemory),
        }
    }

    /// Begins a check like `check`, so that you can add further attributes, such as NETWORK-COST.
    /// Then call `finish_check`, which completes the check.
    ///
    /// # Errors
    ///
    /// - `NoRemote`: the credentials of the peer, which a check needs for its signature, are not
    ///   known yet.
    /// - `OutOfMemory`: an allocation failed.
    pub fn begin_check(
        &self,
        id: TransactionId,
        priority: u32,
        nominate: bool,
    ) -> Result<MessageWriteVec<A>, CheckError>
        ensures refused { MatchOption self.now.peer (result ≡ Err CheckError.NoRemote)
            (λ peer. IsOkUnless result CheckError.OutOfMemory) }
        ensures granted { IfSome self.now.peer (λ peer. A.grants → IsOk result) }
        ensures bytes { IfSome self.now.peer (λ peer. IfOk result (λ page. page.bytes
            ≡ check_page self.now peer id priority (can_nominate self.now.role nominate))) }
        ensures header { IfOk result (λ page. 20 ≤ length page.bytes) }
    {
        let Some(remote) = &self.remote else {
            return Err(CheckError::NoRemote);
        };
        let nominates = self.can_nominate(nominate);
        match self.make_check_page(remote, id, priority, nominates) {
            Ok(page) => Ok(page),
            // There is room for every attribute, so an allocation has failed.
            Err(_) => Err(CheckError::OutOfMemory),
        }
    }

    /// Completes a check that `begin_check` began with the same ID and the same `nominate`: signs
    /// the check, and adds FINGERPRINT. `to` is the address to which you send the check. The peer
    /// refuses the check with a 420 if you added an attribute of a type below 0x8000 that the peer
    /// does not understand.
    ///
    /// # Errors
    ///
    /// Fails with the first of these that applies:
    ///
    /// - `NotAllowed`: the credentials of the peer are not known.
    /// - `MessageIntegrityExists`: you have signed the check.
    /// - `AttributeExists`: you have added FINGERPRINT.
    /// - `TooLarge`: the check would be longer than a message can be.
    /// - `OutOfMemory`: an allocation failed.
    pub fn finish_check(
        &self,
        page: MessageWriteVec<A>,
        id: TransactionId,
        to: SocketAddr,
        nominate: bool,
    ) -> Result<Check<A>, StunWriteError>
        requires { 20 ≤ length page.bytes }
        ensures unknown { MatchOption self.now.peer (result ≡ Err StunWriteError.NotAllowed)
            (λ peer. IfErr result (λ why. (why ≡ StunWriteError.OutOfMemory)
            ⊎ (ending_refusal peer.password page.bytes ≡ Some why))) }
        ensures granted { IfSome self.now.peer (λ peer. A.grants
            → ending_refusal peer.password page.bytes ≡ None → IsOk result) }
        ensures check { IfSome self.now.peer (λ peer. IfOk result (λ check. check
            ≡ sent_page self.now peer id to nominate page.bytes)) }
    {
        let Some(remote) = &self.remote else {
            return Err(StunWriteError::NotAllowed);
        };
        let nominates = self.can_nominate(nominate);
        match end_page(&remote.password, page) {
            Ok(bytes) => Ok(Check::new(id, to, self.role, nominates, bytes)),
            Err(why) => Err(why),
        }
    }

    /// Returns whether a check nominates its pair: `nominate` is true, and this agent has the
    /// controlling role.
    fn can_nominate(&self, nominate: bool) -> bool
        ensures { result ≡ can_nominate self.now.role nominate }
    {
        match self.role {
            Role::Controlling => nominate,
            Role::Controlled => false,
        }
    }

    /// Writes the bytes of a check.
    #[tactic(auto, using(crate::proofs::RoomLemmas::check_ends), unfolding(crate::specs::Agent::check_bytes))]
    fn write_check(
        &self,
        remote: &Remote<A>,
        id: TransactionId,
        priority: u32,
        nominates: bool,
    ) -> Result<Vec<u8, A>, StunWriteError>
        ensures bytes { IfOk result (λ bytes. bytes.items
            ≡ check_bytes self.now remote.now id priority nominates) }
        ensures granted { A.grants → IsOk result }
    {
        let page = self.make_check_page(remote, id, priority, nominates)?;
        let bytes = end_page(&remote.password, page)?;
        Ok(bytes)
    }

    /// Writes a check without its signature and FINGERPRINT.
    fn make_check_page(
        &self,
        remote: &Remote<A>,
        id: TransactionId,
        priority: u32,
        nominates: bool,
    ) -> Result<MessageWriteVec<A>, StunWriteError>
        ensures bytes { IfOk result (λ page. page.bytes
            ≡ check_page self.now remote.now id priority nominates) }
        ensures header { IfOk result (λ page. 20 ≤ length page.bytes) }
        ensures open { IfOk result (λ page. IsOpen page.bytes) }
        ensures short { IfOk result (λ page. length page.bytes ≤ 564) }
        ensures granted { A.grants → IsOk result }
    {
        let mut writer = MessageWriteVec::new(self.alloc);
        // One block of memory of this size is enough for a check.
        writer.reserve(CHECK_LENGTH.saturating_add(attribute_length(remote.username.len())))?;
        let mut page = Message::builder_request(BINDING, id, writer)?;
        page.add_attribute(&Username::new(&remote.username)?)?;
        page.add_attribute(&Priority::new(priority))?;
        add_role(&mut page, self.role, self.tie_breaker)?;
        add_nomination(&mut page, nominates)?;
        Ok(page)
    }
}

/// Signs a check with a password, and adds FINGERPRINT.
fn end_page<A: Memory>(
    password: &PreparedKey<A>,
    page: MessageWriteVec<A>,
) -> Result<Vec<u8, A>, StunWriteError>
    requires { 20 ≤ length page.bytes }
    ensures bytes { IfOk result (λ bytes. bytes.items ≡ ended_page password.now page.bytes) }
    ensures refused { IfErr result (λ why. (why ≡ StunWriteError.OutOfMemory)
        ⊎ (ending_refusal password.now page.bytes ≡ Some why)) }
    ensures granted { A.grants → ending_refusal password.now page.bytes ≡ None → IsOk result }
{
    let mut page = page;
    page.add_message_integrity_with_prepared_key(password, IntegrityAlgorithm::Sha1)?;
    let bytes = finish_with_fingerprint(page)?;
    Ok(bytes)
}

/// Adds the attribute with the role and the tie-breaker: ICE-CONTROLLING or ICE-CONTROLLED.
fn add_role<A: Memory>(
    page: &mut MessageWriteVec<A>,
    role: Role,
    tie_breaker: u64,
) -> Result<(), StunWriteError>
    requires { 20 ≤ length page.old.bytes }
    ensures bytes { OnOk result (page.new.bytes
        ≡ with_attribute page.old.bytes (role_attribute role tie_breaker)) }
    ensures header { OnOk result (20 ≤ length page.new.bytes) }
    ensures adds { AddsAttribute A.grants (λ w. w.bytes) (λ w. LENGTH_LIMIT - length w.bytes)
        (λ w. w.reserved) page.old page.new
        (attribute_refusal page.old.bytes (LENGTH_LIMIT - length page.old.bytes)
        (role_attribute role tie_breaker).kind 8) (role_attribute role tie_breaker) result }
    ensures room { OnOk result (LENGTH_LIMIT - length page.old.bytes
        ≤ 12 + (LENGTH_LIMIT - length page.new.bytes)) }
{
    match role {
        Role::Controlling => page.add_attribute(&IceControlling::new(tie_breaker)),
        Role::Controlled => page.add_attribute(&IceControlled::new(tie_breaker)),
    }
}

/// Adds USE-CANDIDATE, if the check nominates its pair.
fn add_nomination<A: Memory>(
    page: &mut MessageWriteVec<A>,
    nominates: bool,
) -> Result<(), StunWriteError>
    requires { 20 ≤ length page.old.bytes }
    ensures bytes { OnOk result (page.new.bytes ≡ with_nomination nominates page.old.bytes) }
    ensures header { OnOk result (20 ≤ length page.new.bytes) }
    ensures open { OnOk result (IsOpen page.old.bytes → IsOpen page.new.bytes) }
    ensures room { OnOk result (LENGTH_LIMIT - length page.old.bytes
        ≤ 4 + (LENGTH_LIMIT - length page.new.bytes)) }
    ensures granted { A.grants → attribute_refusal page.old.bytes
        (LENGTH_LIMIT - length page.old.bytes) USE_CANDIDATE 0 ≡ None → IsOk result }
{
    if nominates {
        page.add_attribute(&UseCandidate::new())
    } else {
        Ok(())
    }
}

impl<A: Allocator + Copy> Checker<A> {
    /// Returns the role that the agent has now.
    pub fn role(&self) -> Role
        ensures { result ≡ self.now.role }
    {
        self.role
    }

    /// Returns `true` if the credentials of the peer are known, so that checks can be written.
    pub fn has_remote(&self) -> bool
        ensures { result ≡ is_some self.now.peer }
    {
        self.remote.is_some()
    }

    /// Returns the username fragment of the peer in a check: the part of USERNAME after the name of
    /// this agent and a colon. Returns `None` if USERNAME is missing or does not begin in this way.
    /// Such a check is not accepted.
    ///
    /// If an offer has several answers, a check may arrive before them, and this fragment shows
    /// which answer the check belongs to. Do not rely on the fragment in a check that `receive`
    /// does not accept, because anybody can have written it.
    pub fn sender<'a>(&self, check: &Message<'a>) -> Option<&'a [u8]>
        ensures { option_copied result ≡ sender_in self.now check.now }
    {
        match read_username(check) {
            Some(username) => read_peer_name(&self.name, username),
            None => None,
        }
    }

    /// Returns the tie-breaker.
    pub fn tie_breaker(&self) -> u64
        ensures { result ≡ self.now.tie_breaker }
    {
        self.tie_breaker
    }

    /// Sets the role. Call it to undo a switch of roles if you cannot send the answer to the check
    /// that caused the switch.
    pub fn set_role(&mut self, role: Role)
        ensures { self.new ≡ record self.old { role = role } }
    {
        self.role = role;
    }

    /// Replaces the tie-breaker. After a 487 an agent must have a new random tie-breaker before its
    /// next check (RFC 8445, section 16.1).
    pub fn set_tie_breaker(&mut self, tie_breaker: u64)
        ensures { self.new ≡ record self.old { tie_breaker = tie_breaker } }
    {
        self.tie_breaker = tie_breaker;
    }
}
