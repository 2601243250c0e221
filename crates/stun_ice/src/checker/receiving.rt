//! Judges datagrams (RFC 8445, sections 7.2.5, 7.3 and 11).

ghost use Rattle.std.specs.Option.{option_copied};
ghost use Rattle.std.specs.Prelude.{◌≡◌, ◌↔◌, [], IfOk, IsOk, OnErr, OnOk, false};
ghost use Rattle.stun_base.specs.MessageType.{class_in};
ghost use Rattle.stun_ice.specs.Buffered.{LeavesNoAnswer, given_in};
ghost use Rattle.stun_ice.specs.Checks.{verdict_of};
ghost use Rattle.stun_ice.specs.Received.{by_class, by_fingerprint, by_response, given, given_of};
ghost use Rattle.stun_ice.specs.Received.{is_check, judgement_of, no_message, of_indication};
ghost use Rattle.stun_ice.specs.Received.{role_after_outcome, role_left};
ghost use Rattle.stun_ice.specs.code.Answerable.{AnswersAnswerable, IsAnswerable};
ghost use Rattle.stun_ice.specs.Told.{IsAcceptedCheck, IsValidAnswer, TellsAccepted, TellsValid};

use crate::check::Check;
use crate::checker::Checker;
use crate::checker::judging::Verdict;
use crate::checker::responses::is_answered;
use crate::parts::{is_binding, is_understood};
use crate::received::{DropReason, Outcome, Received, ReceivedInto};
use crate::role::Role;
use std::alloc::{AllocError, Allocator};
use std::net::SocketAddr;
use stun_base::header::MessageHeader;
use stun_base::memory::Memory;
use stun_buffer::writer::BufferWriter;
use stun_extra::fingerprint::{Fingerprint, check_fingerprint};
use stun_types::message::{Message, MessageClass};

/// The outcome of a datagram, before an answer is written.
#[derive(Drop)]
pub(crate) enum Judgement<'a> {
    Check(Message<'a>, Verdict),
    Response(Outcome),
    Indication(Message<'a>),
    Dropped(DropReason),
}

/// Returns the reason to drop bytes that are not a message.
fn find_drop_reason(bytes: &[u8]) -> DropReason
    ensures { result ≡ no_message bytes.now }
{
    match MessageHeader::from_bytes(bytes) {
        Ok(_) => DropReason::Malformed,
        Err(_) => DropReason::NotStun,
    }
}

/// Returns the role that an agent has after the outcome of one of its checks. `role` is the role
/// that it has before.
fn choose_role_after_outcome(role: Role, outcome: &Outcome) -> Role
    ensures { result ≡ role_after_outcome role outcome.now }
{
    match outcome {
        Outcome::RoleConflict { switched: true } => role.opposite(),
        _ => role,
    }
}

impl<A: Allocator> Checker<A> {
    /// Judges a datagram.
    pub(super) fn judge<'a>(
        &self,
        bytes: &'a [u8],
        from: SocketAddr,
        check: Option<&Check<A>>,
    ) -> Judgement<'a>
        ensures judgement { result
            ≡ judgement_of self.now (option_copied check.entry) from bytes.now }
        ensures answerable { AnswersAnswerable result }
    {
        let Ok(message) = Message::from_bytes(bytes) else {
            return Judgement::Dropped(find_drop_reason(bytes));
        };
        match check_fingerprint(&message) {
            Fingerprint::Right => self.judge_by_method(message, from, check),
            _ => Judgement::Dropped(DropReason::WrongFingerprint),
        }
    }

    /// Judges a message with a valid FINGERPRINT by its method and its class.
    fn judge_by_method<'a>(
        &self,
        message: Message<'a>,
        from: SocketAddr,
        check: Option<&Check<A>>,
    ) -> Judgement<'a>
        ensures judgement { result
            ≡ by_fingerprint self.now (option_copied check.entry) from message.entry
            Fingerprint.Right }
        ensures answerable { AnswersAnswerable result }
    {
        if !is_binding(&message) {
            return Judgement::Dropped(DropReason::OtherMethod);
        }
        match message.class() {
            MessageClass::Request => self.judge_request(message),
            MessageClass::Indication => judge_indication(message),
            MessageClass::Success => self.judge_response(&message, from, check),
            MessageClass::Error => self.judge_response(&message, from, check),
        }
    }

    /// Judges a check.
    #[tactic(auto, using(crate::proofs::AnswerableLemmas::verdict_answerable))]
    fn judge_request<'a>(&self, message: Message<'a>) -> Judgement<'a>
        requires { class_in message ≡ MessageClass.Request }
        ensures judgement { result
            ≡ Judgement.Check message.entry (verdict_of self.now message.entry) }
        ensures answerable { AnswersAnswerable result }
    {
        let verdict = self.judge_check(&message);
        Judgement::Check(message, verdict)
    }

    /// Judges a response.
    fn judge_response<'a>(
        &self,
        message: &Message<'_>,
        from: SocketAddr,
        check: Option<&Check<A>>,
    ) -> Judgement<'a>
        ensures judgement { result
            ≡ by_response self.now (option_copied check.entry) from message.now }
        ensures answerable { AnswersAnswerable result }
    {
        let Some(check) = check else {
            return Judgement::Dropped(DropReason::NotAsked);
        };
        if !is_answered(check, message) {
            return Judgement::Dropped(DropReason::NotAsked);
        }
        if !self.is_signed(message) {
            return Judgement::Dropped(DropReason::WrongSignature);
        }
        Judgement::Response(self.judge_answer(message, from, check))
    }
}

/// Judges an indication.
fn judge_indication<'a>(message: Message<'a>) -> Judgement<'a>
    ensures judgement { result ≡ of_indication message.entry }
    ensures answerable { AnswersAnswerable result }
{
    if is_understood(&message) {
        Judgement::Indication(message)
    } else {
        Judgement::Dropped(DropReason::UnknownAttribute)
    }
}

impl<A: Memory> Checker<A> {
    /// Judges a datagram, and writes the answer if it is a check.
    ///
    /// `from` is the address that the datagram came from. `check` is the stored check with the same
    /// transaction ID as the datagram, if you have one. The two forms of an IPv4 address, `a.b.c.d`
    /// and `::ffff:a.b.c.d`, count as the same address.
    ///
    /// - Bytes that are not a message, messages without a valid FINGERPRINT, and methods other than
    ///   Binding are dropped.
    /// - A check is accepted if its USERNAME begins with the name of this agent and a colon, it is
    ///   signed with the password of this agent, it has a well-formed PRIORITY, and this agent
    ///   understands all its comprehension-required attributes. If it states that the peer has the
    ///   same role as this agent, the agent with the larger tie-breaker becomes controlling (RFC
    ///   8445, section 7.3.1.1), or this agent if the tie-breakers are equal. For this, this agent
    ///   either switches its own role, or answers the check with a 487 instead of accepting it. The
    ///   answer is the same whether or not the credentials of the peer are known.
    /// - A response is dropped if it does not answer `check`, or is not signed by the peer.
    ///   Otherwise it ends the check. After a 487 this agent has the opposite of the role in which
    ///   the check was sent (section 7.2.5.1).
    /// - An indication is dropped if it has a comprehension-required attribute that this agent does
    ///   not understand.
    ///
    /// Fails if an allocation fails. The role is then unchanged, and the peer retransmits its
    /// check. Memory is allocated only for the answer to a check.
    pub fn receive<'a>(
        &mut self,
        bytes: &'a [u8],
        from: SocketAddr,
        check: Option<&Check<A>>,
    ) -> Result<Received<'a, A>, AllocError>
        ensures received { IfOk result (λ received. given_of received
            ≡ given self.old from (judgement_of self.old (option_copied check.entry) from
            bytes.now)) }

        // A check is accepted, and a pair is valid, if and only if these definitions say so.
        ensures accepted { IfOk result (λ received. TellsAccepted (given_of received)
            ↔ IsAcceptedCheck self.old bytes.now) }
        ensures valid { IfOk result (λ received. TellsValid (given_of received)
            ↔ IsValidAnswer self.old (option_copied check.entry) from bytes.now) }
        ensures no_memory { is_check (judgement_of self.old (option_copied check.entry) from
            bytes.now) ≡ false → IsOk result }
        ensures role { OnOk result (self.new ≡ record self.old {
          role = role_left self.old.role
              (judgement_of self.old (option_copied check.entry) from bytes.now);
        }) }
        ensures err { OnErr result (self.new ≡ self.old) }
        ensures granted { A.grants → IsOk result }
    {
        let mut buffer = Vec::new(self.alloc);
        self.receive_datagram(bytes, from, check, &mut buffer)
    }

    /// Judges a datagram like `receive`, and writes the answer to a check into a buffer, replacing
    /// its contents. If the buffer has the capacity for the answer, no memory is allocated for it.
    /// The buffer is empty afterwards if there is no answer, or if the call fails.
    ///
    /// Fails if an allocation fails. The role is then unchanged, and the peer retransmits its
    /// check.
    pub fn receive_into<'a>(
        &mut self,
        bytes: &'a [u8],
        from: SocketAddr,
        check: Option<&Check<A>>,
        buffer: &mut Vec<u8, A>,
    ) -> Result<ReceivedInto<'a>, AllocError>
        // With the bytes in the buffer, the result is what `receive` returns, and the role is the
        // same as after `receive`.
        ensures received { IfOk result (λ received. given_in received buffer.new.items
            ≡ given self.old from (judgement_of self.old (option_copied check.entry) from
            bytes.now)) }
        ensures rest { IfOk result (λ received. LeavesNoAnswer received buffer.new.items) }
        ensures no_memory { is_check (judgement_of self.old (option_copied check.entry) from
            bytes.now) ≡ false → IsOk result }
        ensures role { OnOk result (self.new ≡ record self.old {
          role = role_left self.old.role
              (judgement_of self.old (option_copied check.entry) from bytes.now);
        }) }
        ensures err { OnErr result ((self.new ≡ self.old) × (buffer.new.items ≡ [])) }
        ensures granted { A.grants → IsOk result }
    {
        match self.receive_datagram(bytes, from, check, buffer) {
            Ok(received) => Ok(received.into_buffer(buffer)),
            Err(_) => {
                buffer.clear();
                Err(AllocError)
            }
        }
    }

    /// Judges a datagram, and writes the answer if it is a check. The answer uses the memory of
    /// `buffer`, if this is enough.
    fn receive_datagram<'a>(
        &mut self,
        bytes: &'a [u8],
        from: SocketAddr,
        check: Option<&Check<A>>,
        buffer: &mut Vec<u8, A>,
    ) -> Result<Received<'a, A>, AllocError>
        ensures received { IfOk result (λ received. given_of received
            ≡ given self.old from (judgement_of self.old (option_copied check.entry) from
            bytes.now)) }
        ensures no_memory { is_check (judgement_of self.old (option_copied check.entry) from
            bytes.now) ≡ false → IsOk result }
        ensures role { OnOk result (self.new ≡ record self.old {
          role = role_left self.old.role
              (judgement_of self.old (option_copied check.entry) from bytes.now);
        }) }
        ensures err { OnErr result (self.new ≡ self.old) }
        ensures granted { A.grants → IsOk result }
    {
        match self.judge(bytes, from, check) {
            Judgement::Check(message, verdict) => self.answer_check(message, from, verdict, buffer),
            Judgement::Response(outcome) => {
                self.role = choose_role_after_outcome(self.role, &outcome);
                Ok(Received::Response(outcome))
            }
            Judgement::Indication(message) => Ok(Received::Indication(message)),
            Judgement::Dropped(reason) => Ok(Received::Dropped(reason)),
        }
    }

    /// Writes the answer to a check into the memory of the buffer, and sets the role that the agent
    /// has after the check.
    fn answer_check<'a>(
        &mut self,
        message: Message<'a>,
        from: SocketAddr,
        verdict: Verdict,
        buffer: &mut Vec<u8, A>,
    ) -> Result<Received<'a, A>, AllocError>
        ensures received { IfOk result (λ received. given_of received
            ≡ given self.old from (Judgement.Check message.entry verdict)) }
        ensures role { OnOk result (self.new ≡ record self.old {
          role = role_left self.old.role (Judgement.Check message.entry verdict);
        }) }
        ensures err { OnErr result (self.new ≡ self.old) }
        ensures granted { A.grants → IsAnswerable message.entry verdict → IsOk result }
    {
        let writer = BufferWriter::over(buffer);
        let Ok(answer) = self.answer(&message, from, verdict, writer) else {
            return Err(AllocError);
        };
        let judged = verdict.to_judged(self.role);
        self.role = verdict.choose_role(self.role);
        Ok(Received::Check {
            message,
            answer,
            judged,
        })
    }
}
