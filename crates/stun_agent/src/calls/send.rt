//! Sending messages, and storing requests.
ghost use Rattle.std.specs.Prelude.{◌≡◌, Some, None, Ok, Err, IsOk, IfOk, IfErr};
ghost use Rattle.std.specs.Prelude.{OnOk, OnErr, IsErrOf, IsOkUnless, MatchOption};
ghost use Rattle.std.specs.Borrow.{sem};
ghost use Rattle.stun_base.specs.Header.{transaction_id_field};
ghost use Rattle.stun_base.specs.MessageType.{class_in};
ghost use Rattle.stun_agent.specs.Agent.{address_refusal, class_refusal};
ghost use Rattle.stun_agent.specs.Agent.{sending_refusal, after_send, request_refusal};
ghost use Rattle.stun_agent.specs.Agent.{request_of, after_send_request};
ghost use Rattle.stun_agent.specs.Datagrams.{parts, lent_datagram};
ghost use Rattle.stun_agent.specs.Transactions.{IsRequestOf, at};

use crate::agent::StunAgent;
use crate::calls::transmit::Transmit;
use crate::calls::uncounted::Uncounted;
use crate::error::StunError;
use crate::state::address::is_same;
use crate::state::transaction::Transaction;
use crate::stats::counting;
use std::net::SocketAddr;
use stun_base::data::OwnedBytes;
use stun_base::header::MessageHeader;
use stun_base::instant::Instant;
use stun_base::memory::Memory;
use stun_base::message_type::MessageClass;
use stun_base::transaction_id::TransactionId;
use stun_types::message::deciding_algorithm;

impl<A: Memory> StunAgent<A> {
    ghost use Rattle.stun_agent.specs.AgentLends.{ends_if_ok_as};

    /// Wraps bytes that are not STUN, such as media, in a `Transmit`.
    ///
    /// The agent stores nothing and counts nothing.
    ///
    /// # Errors
    ///
    /// After an error, the bytes are dropped.
    ///
    /// - `ProtocolViolation`: the agent has a fixed remote address and `to` is a different one.
    pub fn send_data<T: OwnedBytes + Drop>(
        &self,
        bytes: T,
        to: SocketAddr,
    ) -> Result<Transmit<T>, StunError>
        ensures refused { MatchOption (address_refusal self.now to) (IsOk result) (IsErrOf result) }
        ensures sent { IfOk result (λ t. parts t
            ≡ (bytes, self.now.transport, self.now.local_addr, to)) }
    {
        self.check_address(to)?;
        Ok(Transmit::new(bytes, self.outstanding.transport(), self.local_addr, to))
    }

    /// Fails with `ProtocolViolation` if the agent has a fixed remote address and `to` is a
    /// different one.
    fn check_address(&self, to: SocketAddr) -> Result<(), StunError>
        ensures { MatchOption (address_refusal self.now to) (result ≡ Ok tt)
            (λ error. result ≡ Err error) }
    {
        match self.remote_addr {
            Some(peer) => {
                if is_same(to, peer) {
                    Ok(())
                } else {
                    Err(StunError::ProtocolViolation)
                }
            }
            None => Ok(()),
        }
    }

    /// Wraps a response or an indication in a `Transmit`, and counts it in the statistics.
    ///
    /// The agent does not store the message, because no response to it will arrive, and the call
    /// does not allocate. To send a request, call `send_request`. `_now` is not used. It is an
    /// argument because the crate `stun-proto` has it.
    ///
    /// # Errors
    ///
    /// The first of these that applies. The agent is then unchanged, and the message is dropped.
    ///
    /// - `ParseError`: the bytes do not start with a STUN header.
    /// - `ProtocolViolation`: the message is a request.
    /// - `ProtocolViolation`: the agent has a fixed remote address and `to` is a different one.
    pub fn send<T: OwnedBytes + Drop>(
        &mut self,
        msg: T,
        to: SocketAddr,
        _now: Instant,
    ) -> Result<Transmit<T>, StunError>
        ensures refused { MatchOption (sending_refusal self.old (T.contents msg) to) (IsOk result)
            (IsErrOf result) }
        ensures ok { OnOk result (self.new ≡ after_send (T.contents msg) self.old) }
        ensures err { OnErr result (self.new ≡ self.old) }
        ensures sent { IfOk result (λ t. parts t
            ≡ (msg, self.old.transport, self.old.local_addr, to)) }
    {
        let bytes = msg.bytes();
        let class = self.read_class_to_send(bytes, to)?;
        counting::count_sent(&mut self.stats, class, bytes.len());
        Ok(Transmit::new(msg, self.outstanding.transport(), self.local_addr, to))
    }

    /// Stores a request, starts its retransmission timer, and returns the bytes to send now, which
    /// are borrowed from the agent.
    ///
    /// The request stays outstanding until one of these happens:
    ///
    /// - `handle_stun_message` or `handle_stun_message_with_time` accepts its response;
    /// - `poll` reports that it timed out or was canceled.
    ///
    /// Until then `poll_transmit` returns the same bytes again each time a retransmission is due.
    ///
    /// Each request needs a new, unpredictable transaction ID. This includes the signed request
    /// that you send after a 401 or a 438, so build that request from scratch.
    ///
    /// # Errors
    ///
    /// The first of these that applies. The agent is then unchanged, and the message is dropped.
    ///
    /// - `ParseError`: the bytes do not start with a STUN header.
    /// - `ProtocolViolation`: the message is not a request.
    /// - `ProtocolViolation`: the agent has a fixed remote address and `to` is a different one.
    /// - `AlreadyInProgress`: a request with this transaction ID is outstanding.
    /// - `OutOfMemory`: the request could not be stored.
    pub fn send_request<T: OwnedBytes + Drop>(
        &mut self,
        msg: T,
        to: SocketAddr,
        now: Instant,
    ) -> Result<Transmit<&[u8]>, StunError>
        ensures* after { sem 𝓛 (ends_if_ok_as A.row A.Allocator self.entry result
            (after_send_request self.old (T.contents msg) to now)) }
        ensures refused { MatchOption (request_refusal self.old (T.contents msg) to)
            (IsOkUnless result StunError.OutOfMemory) (IsErrOf result) }
        ensures granted { A.grants → request_refusal self.old (T.contents msg) to ≡ None
            → IsOk result }
        ensures sent { IfOk result (λ t. lent_datagram t
            ≡ (T.contents msg, self.old.transport, self.old.local_addr, to)) }
    {
        let id = self.keep_request(msg.bytes(), to, now)?;
        let transport = self.outstanding.transport();
        let from = self.local_addr;
        // Borrows the stored copy, because the clause `after`, which is exact, cannot be proved for
        // a result that may own memory.
        let request = self.outstanding.get(id, Uncounted::new()).unwrap();
        Ok(Transmit {
            data: request.bytes(),
            transport,
            from,
            to,
        })
    }

    /// Stores and counts a request, and returns its transaction ID. If the call fails, the agent is
    /// unchanged.
    fn keep_request(
        &mut self,
        bytes: &[u8],
        to: SocketAddr,
        now: Instant,
    ) -> Result<TransactionId, StunError>
        ensures refused { MatchOption (request_refusal self.old bytes.now to)
            (IsOkUnless result StunError.OutOfMemory) (IsErrOf result) }
        ensures granted { A.grants → request_refusal self.old bytes.now to ≡ None → IsOk result }
        ensures taken { OnOk result (request_refusal self.old bytes.now to ≡ None) }
        ensures ok { OnOk result (self.new ≡ after_send_request self.old bytes.now to now) }
        ensures err { OnErr result (self.new ≡ self.old) }
        ensures kept { IfOk result (λ id. at id self.new.transactions
            ≡ Some (request_of self.old bytes.now to now)) }
    {
        let id = self.read_id_to_ask(bytes, to)?;
        let kept = A::copied(self.alloc, bytes)?;
        let request = Transaction::new(kept, to, deciding_algorithm(bytes), self.settings, now);
        self.outstanding.insert(self.alloc, id, request, ())?;
        counting::count_sent(&mut self.stats, MessageClass::Request, bytes.len());
        Ok(id)
    }

    /// Returns the class of a message if it is an indication or a response that may be sent to
    /// `to`. Fails with the error of `send` otherwise.
    fn read_class_to_send(&self, bytes: &[u8], to: SocketAddr) -> Result<MessageClass, StunError>
        ensures accepted { OnOk result (sending_refusal self.now bytes.now to ≡ None) }
        ensures class { IfOk result (λ class. class ≡ class_in bytes.now) }
        ensures refused { IfErr result (λ error. sending_refusal self.now bytes.now to
            ≡ Some error) }
    {
        let class = read_answerless_class(bytes)?;
        self.check_address(to)?;
        Ok(class)
    }

    /// Returns the transaction ID of a message if it is a request that may be sent to `to`. Fails
    /// with the error of `send_request` otherwise.
    fn read_id_to_ask(&self, bytes: &[u8], to: SocketAddr) -> Result<TransactionId, StunError>
        ensures answer { MatchOption (request_refusal self.now bytes.now to)
            (result ≡ Ok (transaction_id_field bytes.now)) (λ error. result ≡ Err error) }
        ensures request { IfOk result (λ id. IsRequestOf id bytes.now) }
        ensures absent { IfOk result (λ id. at id self.now.transactions ≡ None) }
    {
        let header = MessageHeader::from_bytes(bytes)?;
        if header.get_type().class() != MessageClass::Request {
            return Err(StunError::ProtocolViolation);
        }
        self.check_address(to)?;
        let id = header.transaction_id();
        if self.outstanding.get(id, Uncounted::new()).is_some() {
            return Err(StunError::AlreadyInProgress);
        }
        Ok(id)
    }
}

/// Returns the class of an indication or a response. Fails for a request, and if the bytes do not
/// start with a STUN header.
fn read_answerless_class(bytes: &[u8]) -> Result<MessageClass, StunError>
    ensures { MatchOption (class_refusal bytes.now) (result ≡ Ok (class_in bytes.now))
        (λ error. result ≡ Err error) }
{
    let class = MessageHeader::from_bytes(bytes)?.get_type().class();
    if class == MessageClass::Request {
        return Err(StunError::ProtocolViolation);
    }
    Ok(class)
}
